//! Lines that belong together.

ghost use Rattle.inputs_file.specs.declared.field.Field.TheVariants as fields;
ghost use Rattle.inputs_file.specs.Reading.{Gives, opening_at, views_file_at, options_at, base_at, centre_at, seed_at, pair_at};
ghost use Rattle.inputs_file.specs.View.{opening_view, views_file_view, note_view};

use crate::fault::Unread;
use crate::field::Field;
use crate::line::{digest, flag, origin, pair, real, stop, text, whole};
use crate::stored::{Camera, Centre, HostVersion, Note, Options, Seed, ViewsFile};
use std::alloc::Global;

/// The library's version, and the host, if it is named.
pub(crate) type Opening = (String, Option<HostVersion>);

/// The first line, the library and the host.
#[tactic(auto, unfolding(crate::specs::Reading::opening_at))]
pub(crate) fn opening(alloc: Global, bytes: &[u8]) -> Result<(Opening, &[u8]), Unread>
    ensures { Gives (λ x. (opening_view x.0, x.1.now)) result (opening_at bytes.now) }
{
    if bytes.starts_with(b"jinnychair inputs 1\n") {
        let (_, rest) = bytes.split_at(20);
        let (library, rest) = text(Field::Library, rest)?;
        return Ok(((String::from_str(alloc, library)?, None), rest));
    }
    if !bytes.starts_with(b"jinnychair inputs 2\n") {
        return Err(stop(Field::Head, bytes));
    }
    let (_, rest) = bytes.split_at(20);
    let (library, rest) = text(Field::Library, rest)?;
    let ((name, version), rest) = pair(Field::Host, rest)?;
    let library = String::from_str(alloc, library)?;
    let name = String::from_str(alloc, name)?;
    let version = String::from_str(alloc, version)?;
    Ok(((library, Some(HostVersion { name, version })), rest))
}

/// Where the views come from.
#[tactic(auto, unfolding(crate::specs::Reading::views_file_at))]
pub(crate) fn views_file(alloc: Global, bytes: &[u8]) -> Result<(Option<ViewsFile>, &[u8]), Unread>
    ensures { Gives (λ x. (views_file_view x.0, x.1.now)) result (views_file_at bytes.now) }
{
    let (name, rest) = origin(Field::ViewsFrom, bytes)?;
    match name {
        None => Ok((None, rest)),
        Some(name) => {
            let (sha256, rest) = digest(Field::ViewsSha256, rest)?;
            let name = String::from_str(alloc, name)?;
            let sha256 = String::from_str(alloc, sha256)?;
            Ok((Some(ViewsFile { name, sha256 }), rest))
        }
    }
}

#[tactic(auto, unfolding(crate::specs::Reading::options_at))]
pub(crate) fn options(bytes: &[u8]) -> Result<(Options, &[u8]), Unread>
    ensures { Gives (λ x. (x.0, x.1.now)) result (options_at bytes.now) }
{
    let (rounds, rest) = whole(Field::Rounds, bytes)?;
    let (step, rest) = real(Field::Step, rest)?;
    let (bound, rest) = real(Field::Bound, rest)?;
    let (one_axis, rest) = flag(Field::OneAxis, rest)?;
    let (min_counted, rest) = whole(Field::MinCounted, rest)?;
    let options = Options {
        rounds,
        step,
        bound,
        one_axis,
        min_counted,
    };
    Ok((options, rest))
}

#[tactic(auto, unfolding(crate::specs::Reading::base_at))]
pub(crate) fn base(bytes: &[u8]) -> Result<(Camera, &[u8]), Unread>
    ensures { Gives (λ x. (x.0, x.1.now)) result (base_at bytes.now) }
{
    let (fx, rest) = real(Field::BaseFx, bytes)?;
    let (fy, rest) = real(Field::BaseFy, rest)?;
    let (cx, rest) = real(Field::BaseCx, rest)?;
    let (cy, rest) = real(Field::BaseCy, rest)?;
    Ok((Camera { fx, fy, cx, cy }, rest))
}

#[tactic(auto, unfolding(crate::specs::Reading::centre_at))]
pub(crate) fn centre(bytes: &[u8]) -> Result<(Centre, &[u8]), Unread>
    ensures { Gives (λ x. (x.0, x.1.now)) result (centre_at bytes.now) }
{
    let (x, rest) = real(Field::CentreX, bytes)?;
    let (y, rest) = real(Field::CentreY, rest)?;
    Ok((Centre { x, y }, rest))
}

#[tactic(auto, unfolding(crate::specs::Reading::seed_at))]
pub(crate) fn seed(bytes: &[u8]) -> Result<(Seed, &[u8]), Unread>
    ensures { Gives (λ x. (x.0, x.1.now)) result (seed_at bytes.now) }
{
    let (fx, rest) = real(Field::SeedFx, bytes)?;
    let (fy, rest) = real(Field::SeedFy, rest)?;
    let (cx, rest) = real(Field::SeedCx, rest)?;
    let (cy, rest) = real(Field::SeedCy, rest)?;
    let (tilt_x, rest) = real(Field::SeedTiltX, rest)?;
    let (tilt_y, rest) = real(Field::SeedTiltY, rest)?;
    let seed = Seed {
        fx,
        fy,
        cx,
        cy,
        tilt_x,
        tilt_y,
    };
    Ok((seed, rest))
}

pub(crate) fn note(alloc: Global, bytes: &[u8]) -> Result<(Note, &[u8]), Unread>
    ensures { Gives (λ x. (note_view x.0, x.1.now)) result (pair_at fields.Note bytes.now) }
{
    let ((name, text), rest) = pair(Field::Note, bytes)?;
    let name = String::from_str(alloc, name)?;
    let text = String::from_str(alloc, text)?;
    Ok((Note { name, text }, rest))
}
