//! As many lines as there are.

ghost use Rattle.std.specs.Prelude.{◌<◌, length, map};
ghost use Rattle.inputs_file.specs.declared.field.Field.TheVariants as fields;
ghost use Rattle.inputs_file.specs.Reading.{Gives, real_at, seed_at, pair_at, all_at};
ghost use Rattle.inputs_file.specs.Grammar.{start_of};
ghost use Rattle.inputs_file.specs.View.{note_view};

use crate::fault::Unread;
use crate::field::Field;
use crate::group::{note, seed};
use crate::line::{begins, real};
use crate::stored::{Note, Seed};
use std::alloc::Global;

/// The tilts of the grid about one axis.
pub(crate) fn tilts(alloc: Global, field: Field, bytes: &[u8]) -> Result<(Vec<f64>, &[u8]), Unread>
    requires { 0 < length (start_of field) }
    ensures { Gives (λ x. (x.0.items, x.1.now)) result (all_at (real_at field) field bytes.now) }
{
    let mut tilts = Vec::new(alloc);
    let mut rest = bytes;
    while begins(field, rest) {
        let (tilt, after) = real(field, rest)?;
        tilts.push(tilt)?;
        rest = after;
    }
    Ok((tilts, rest))
}

pub(crate) fn seeds(alloc: Global, bytes: &[u8]) -> Result<(Vec<Seed>, &[u8]), Unread>
    ensures { Gives (λ x. (x.0.items, x.1.now)) result (all_at seed_at fields.SeedFx bytes.now) }
{
    let mut seeds = Vec::new(alloc);
    let mut rest = bytes;
    while begins(Field::SeedFx, rest) {
        let (seed, after) = seed(rest)?;
        seeds.push(seed)?;
        rest = after;
    }
    Ok((seeds, rest))
}

pub(crate) fn notes(alloc: Global, bytes: &[u8]) -> Result<(Vec<Note>, &[u8]), Unread>
    ensures { Gives (λ x. (map note_view x.0.items, x.1.now)) result (all_at (pair_at fields.Note) fields.Note bytes.now) }
{
    let mut notes = Vec::new(alloc);
    let mut rest = bytes;
    while begins(Field::Note, rest) {
        let (note, after) = note(alloc, rest)?;
        notes.push(note)?;
        rest = after;
    }
    Ok((notes, rest))
}
