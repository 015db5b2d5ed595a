//! One line, from its start to its newline.

ghost use Rattle.std.specs.Prelude.{◌≡◌, nat_eq};
ghost use Rattle.std.specs.Option.{option_map};
ghost use Rattle.std.specs.List.{starts_with};
ghost use Rattle.inputs_file.specs.declared.fault.Unread.TheVariants as unread;
ghost use Rattle.inputs_file.specs.declared.field.Field.TheVariants as fields;
ghost use Rattle.inputs_file.specs.Grammar.{start_of};
ghost use Rattle.inputs_file.specs.Values.{text_of, pair_of, whole_of, real_of, flag_of, origin_of, digest_of, sum_of};
ghost use Rattle.inputs_file.specs.Reading.{Gives, stop, line_at, field_at};

use crate::fault::{Stop, Unread};
use crate::field::Field;
use crate::value::{
    cut, digest_of, flag_of, is_sum, origin_of, pair_of, real_of, text_of, whole_of,
};

/// This was expected here.
pub(crate) fn stop(expected: Field, bytes: &[u8]) -> Unread
    ensures { result ≡ unread.Stop (stop expected bytes.now) }
{
    Unread::Stop(Stop {
        expected,
        left: bytes.len(),
    })
}

/// Whether such a line is next.
pub(crate) fn begins(field: Field, bytes: &[u8]) -> bool
    ensures { result ≡ starts_with nat_eq bytes.now (start_of field) }
{
    bytes.starts_with(field.start().as_bytes())
}

/// The text behind a line's start, and the lines behind it.
#[tactic(auto, unfolding(crate::specs::Reading::line_at))]
fn line_at(field: Field, bytes: &[u8]) -> Option<(&[u8], &[u8])>
    ensures { option_map (λ x. (x.0.now, x.1.now)) result ≡ line_at (start_of field) bytes.now }
{
    if !begins(field, bytes) {
        return None;
    }
    let (_, text) = bytes.split_at(field.start().len());
    cut(b'\n', text)
}

#[tactic(auto, unfolding(crate::specs::Reading::field_at))]
pub(crate) fn text(field: Field, bytes: &[u8]) -> Result<(&str, &[u8]), Unread>
    ensures { Gives (λ x. (x.0.now, x.1.now)) result (field_at text_of field bytes.now) }
{
    let Some((line, rest)) = line_at(field, bytes) else {
        return Err(stop(field, bytes));
    };
    match text_of(line) {
        Some(value) => Ok((value, rest)),
        None => Err(stop(field, bytes)),
    }
}

#[tactic(auto, unfolding(crate::specs::Reading::field_at))]
pub(crate) fn pair(field: Field, bytes: &[u8]) -> Result<((&str, &str), &[u8]), Unread>
    ensures { Gives (λ x. ((x.0.0.now, x.0.1.now), x.1.now)) result (field_at pair_of field bytes.now) }
{
    let Some((line, rest)) = line_at(field, bytes) else {
        return Err(stop(field, bytes));
    };
    match pair_of(line) {
        Some(value) => Ok((value, rest)),
        None => Err(stop(field, bytes)),
    }
}

#[tactic(auto, unfolding(crate::specs::Reading::field_at))]
pub(crate) fn whole(field: Field, bytes: &[u8]) -> Result<(u64, &[u8]), Unread>
    ensures { Gives (λ x. (x.0, x.1.now)) result (field_at whole_of field bytes.now) }
{
    let Some((line, rest)) = line_at(field, bytes) else {
        return Err(stop(field, bytes));
    };
    match whole_of(line) {
        Some(value) => Ok((value, rest)),
        None => Err(stop(field, bytes)),
    }
}

#[tactic(auto, unfolding(crate::specs::Reading::field_at))]
pub(crate) fn real(field: Field, bytes: &[u8]) -> Result<(f64, &[u8]), Unread>
    ensures { Gives (λ x. (x.0, x.1.now)) result (field_at real_of field bytes.now) }
{
    let Some((line, rest)) = line_at(field, bytes) else {
        return Err(stop(field, bytes));
    };
    match real_of(line) {
        Some(value) => Ok((value, rest)),
        None => Err(stop(field, bytes)),
    }
}

#[tactic(auto, unfolding(crate::specs::Reading::field_at))]
pub(crate) fn flag(field: Field, bytes: &[u8]) -> Result<(bool, &[u8]), Unread>
    ensures { Gives (λ x. (x.0, x.1.now)) result (field_at flag_of field bytes.now) }
{
    let Some((line, rest)) = line_at(field, bytes) else {
        return Err(stop(field, bytes));
    };
    match flag_of(line) {
        Some(value) => Ok((value, rest)),
        None => Err(stop(field, bytes)),
    }
}

#[tactic(auto, unfolding(crate::specs::Reading::field_at))]
pub(crate) fn origin(field: Field, bytes: &[u8]) -> Result<(Option<&str>, &[u8]), Unread>
    ensures { Gives (λ x. ((option_map (λ t. t.now) x.0), x.1.now)) result (field_at origin_of field bytes.now) }
{
    let Some((line, rest)) = line_at(field, bytes) else {
        return Err(stop(field, bytes));
    };
    match origin_of(line) {
        Some(value) => Ok((value, rest)),
        None => Err(stop(field, bytes)),
    }
}

#[tactic(auto, unfolding(crate::specs::Reading::field_at))]
pub(crate) fn digest(field: Field, bytes: &[u8]) -> Result<(&str, &[u8]), Unread>
    ensures { Gives (λ x. (x.0.now, x.1.now)) result (field_at digest_of field bytes.now) }
{
    let Some((line, rest)) = line_at(field, bytes) else {
        return Err(stop(field, bytes));
    };
    match digest_of(line) {
        Some(value) => Ok((value, rest)),
        None => Err(stop(field, bytes)),
    }
}

/// What stands behind the line with the checksum of the lines above it.
#[tactic(auto, unfolding(crate::specs::Reading::field_at))]
pub(crate) fn checksum<'a>(above: &[u8], bytes: &'a [u8]) -> Result<&'a [u8], Unread>
    ensures { Gives (λ rest. (tt, rest.now)) result (field_at (sum_of above.now) fields.Sha256 bytes.now) }
{
    let Some((line, rest)) = line_at(Field::Sha256, bytes) else {
        return Err(stop(Field::Sha256, bytes));
    };
    if is_sum(above, line) {
        Ok(rest)
    } else {
        Err(stop(Field::Sha256, bytes))
    }
}
