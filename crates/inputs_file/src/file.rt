//! A whole file.

ghost use Rattle.std.specs.Prelude.{◌≡◌, ◌≤◌, length, IfOk, Ok, count_by, ◌==◌};
ghost use Rattle.inputs_file.specs.Grammar.{Stored, IsFile};
ghost use Rattle.inputs_file.specs.Reading.{Gives, body_at, file_at, fault_in, reading, Answers};
ghost use Rattle.inputs_file.specs.View.{view};

use crate::fault::{Fault, ReadError, Stop, Unread};
use crate::field::Field;
use crate::group::{base, centre, opening, options, views_file};
use crate::line::{checksum, stop, text, whole};
use crate::list::{notes, seeds, tilts};
use crate::stored::StoredInputs;
use std::alloc::Global;

/// All lines but the last.
#[tactic(auto, unfolding(crate::specs::Reading::body_at))]
fn body(alloc: Global, bytes: &[u8]) -> Result<(StoredInputs, &[u8]), Unread>
    ensures { Gives (λ x. (view x.0, x.1.now)) result (body_at bytes.now) }
{
    let ((library, host), rest) = opening(alloc, bytes)?;
    let (date, rest) = text(Field::Date, rest)?;
    let (views_file, rest) = views_file(alloc, rest)?;
    let (views, rest) = whole(Field::Views, rest)?;
    let (options, rest) = options(rest)?;
    let (base, rest) = base(rest)?;
    let (centre, rest) = centre(rest)?;
    let (tilt_x, rest) = tilts(alloc, Field::TiltX, rest)?;
    let (tilt_y, rest) = tilts(alloc, Field::TiltY, rest)?;
    let (seeds, rest) = seeds(alloc, rest)?;
    let (notes, rest) = notes(alloc, rest)?;
    let stored = StoredInputs {
        library,
        host,
        date: String::from_str(alloc, date)?,
        views_file,
        views,
        options,
        base,
        centre,
        tilt_x,
        tilt_y,
        seeds,
        notes,
    };
    Ok((stored, rest))
}

/// All lines.
#[tactic(auto, unfolding(crate::specs::Reading::file_at))]
fn file(alloc: Global, bytes: &[u8]) -> Result<StoredInputs, Unread>
    ensures { Gives view result (file_at bytes.now) }
{
    let (stored, rest) = body(alloc, bytes)?;
    let (above, _) = bytes.split_at(bytes.len() - rest.len());
    let rest = checksum(above, rest)?;
    match rest {
        [] => Ok(stored),
        [_, ..] => Err(stop(Field::End, rest)),
    }
}

fn count_newlines(bytes: &[u8]) -> usize
    ensures count { result ≡ count_by (λ b. b == 10) bytes.now }
    ensures bound { result ≤ length bytes.now }
{
    bytes.iter().filter(|b| **b == b'\n').count()
}

/// The line in which reading stopped.
fn fault_in(bytes: &[u8], stop: Stop) -> Fault
    ensures { result ≡ fault_in bytes.now stop }
{
    let (above, _) = bytes.split_at(bytes.len().saturating_sub(stop.left));
    Fault {
        line: 1 + count_newlines(above),
        expected: stop.expected,
    }
}

/// Reads a file of inputs.
pub fn read(alloc: Global, bytes: &[u8]) -> Result<StoredInputs, ReadError>
    // What is read is spelled so.
    ensures found { IfOk result (λ inputs. IsFile bytes.now (view inputs)) }
    // What is spelled so is read, unless memory runs out.
    ensures only { (inputs : Stored) → IsFile bytes.now inputs → Answers view result (Ok inputs) }
    // Which fault it is, and in which line.
    ensures exact { Answers view result (reading bytes.now) }
{
    match file(alloc, bytes) {
        Ok(inputs) => Ok(inputs),
        Err(Unread::Memory) => Err(ReadError::Memory),
        Err(Unread::Stop(stop)) => Err(ReadError::Fault(fault_in(bytes, stop))),
    }
}
