//! What stands behind a line's name, one function for each kind.

ghost use Rattle.std.specs.Prelude.{◌≡◌, decimal};
ghost use Rattle.std.specs.Option.{option_map};
ghost use Rattle.std.specs.List.{list_all};
ghost use Rattle.std.specs.Str.{bytes_eq};
ghost use Rattle.inputs_file.specs.Grammar.{is_plain, is_lower_hex, bits_text, sum_text};
ghost use Rattle.inputs_file.specs.Values.{cut, utf8_of, text_of, pair_of, whole_of, real_of, flag_of, digest_of, origin_of};

use itoa::Buffer;
use memchr::memchr;
use sha2::{Digest, Sha256};

/// What stands before the first byte of this value, and what stands behind it.
pub(crate) fn cut(byte: u8, bytes: &[u8]) -> Option<(&[u8], &[u8])>
    ensures { option_map (λ x. (x.0.now, x.1.now)) result ≡ cut byte bytes.now }
{
    let at = memchr(byte, bytes)?;
    Some((&bytes[..at], &bytes[at + 1..]))
}

fn is_plain(bytes: &[u8]) -> bool
    ensures { result ≡ list_all is_plain bytes.now }
{
    bytes.iter().all(|&b| 32 <= b && b != 127)
}

/// The bytes as text in UTF-8.
#[tactic(auto, using(crate::proofs::Texts::utf8_holds, crate::proofs::Texts::utf8_fails))]
fn utf8_of(bytes: &[u8]) -> Option<&str>
    ensures { option_map (λ t. t.now) result ≡ utf8_of bytes.now }
{
    match std::str::from_utf8(bytes) {
        Ok(text) => Some(text),
        Err(_) => None,
    }
}

/// A text without control bytes.
pub(crate) fn text_of(text: &[u8]) -> Option<&str>
    ensures { option_map (λ t. t.now) result ≡ text_of text.now }
{
    if is_plain(text) { utf8_of(text) } else { None }
}

/// Two texts around the first space.
#[tactic(auto, unfolding(crate::specs::Values::pair_of))]
pub(crate) fn pair_of(text: &[u8]) -> Option<(&str, &str)>
    ensures { option_map (λ t. (t.0.now, t.1.now)) result ≡ pair_of text.now }
{
    let (first, second) = cut(b' ', text)?;
    let first = text_of(first)?;
    let second = text_of(second)?;
    Some((first, second))
}

/// A whole number in decimals, below 2^64, without leading zeros.
pub(crate) fn whole_of(text: &[u8]) -> Option<u64>
    ensures { result ≡ whole_of text.now }
{
    match fast_float::parse_u64(text) {
        Ok(number) => if is_decimal(number, text) {
            Some(number)
        } else {
            None
        },
        Err(_) => None,
    }
}

/// Whether the text is the number as it is written.
fn is_decimal(number: u64, text: &[u8]) -> bool
    ensures { result ≡ bytes_eq (decimal number) text.now }
{
    let mut buffer = Buffer::new();
    buffer.format(number).as_bytes() == text
}

/// A real's bits as 16 hexadecimal digits. Every NaN has the same.
fn bits_text(x: f64) -> [u8; 16]
    ensures { result ≡ bits_text x }
{
    let bits = std::num::f64_to_bits_with_nan(x);
    let mut digits = [0u8; 16];
    // 16 digits are room for 8 bytes.
    let _ = hex::encode_to_slice(bits.to_be_bytes(), &mut digits);
    digits
}

/// A real: its bits, a space, and decimals that are read back to these bits.
#[tactic(auto, unfolding(crate::specs::Values::real_of))]
pub(crate) fn real_of(text: &[u8]) -> Option<f64>
    ensures { result ≡ real_of text.now }
{
    let (digits, decimals) = cut(b' ', text)?;
    let value: f64 = fast_float::parse(decimals).ok()?;
    let is_spelled = digits == bits_text(value).as_slice();
    if is_spelled && (!value.is_nan() || decimals == b"NaN".as_slice()) {
        Some(value)
    } else {
        None
    }
}

/// `yes` or `no`.
#[tactic(auto, unfolding(crate::specs::Values::flag_of))]
pub(crate) fn flag_of(text: &[u8]) -> Option<bool>
    ensures { result ≡ flag_of text.now }
{
    if text == b"yes".as_slice() {
        Some(true)
    } else if text == b"no".as_slice() {
        Some(false)
    } else {
        None
    }
}

fn is_lower_hex(text: &[u8]) -> bool
    ensures { result ≡ list_all is_lower_hex text.now }
{
    text.iter()
        .all(|&b| (48 <= b && b <= 57) || (97 <= b && b <= 102))
}

/// A SHA-256 in hexadecimal digits.
#[tactic(auto, unfolding(crate::specs::Values::digest_of))]
pub(crate) fn digest_of(text: &[u8]) -> Option<&str>
    ensures { option_map (λ t. t.now) result ≡ digest_of text.now }
{
    if text.len() == 64 && is_lower_hex(text) {
        utf8_of(text)
    } else {
        None
    }
}

/// The name of the views' file, or `Some(None)` where the host has the views itself.
#[tactic(auto, unfolding(crate::specs::Values::origin_of))]
pub(crate) fn origin_of(text: &[u8]) -> Option<Option<&str>>
    ensures { option_map (λ o. option_map (λ t. t.now) o) result ≡ origin_of text.now }
{
    if text == b"built-in".as_slice() {
        return Some(None);
    }
    if !text.starts_with(b"file ") {
        return None;
    }
    let (_, name) = text.split_at(5);
    let name = text_of(name)?;
    Some(Some(name))
}

/// Whether the text is the SHA-256 of the bytes above it.
pub(crate) fn is_sum(above: &[u8], text: &[u8]) -> bool
    ensures { result ≡ bytes_eq text.now (sum_text above.now) }
{
    text == sum_text(above).as_slice()
}

/// The SHA-256 of the bytes, as 64 hexadecimal digits.
fn sum_text(above: &[u8]) -> [u8; 64]
    ensures { result ≡ sum_text above.now }
{
    let mut digits = [0u8; 64];
    // 64 digits are room for 32 bytes.
    let _ = hex::encode_to_slice(Sha256::digest(above), &mut digits);
    digits
}
