// The writer puts a line's bytes to the front of a lent buffer. Each part is stored from a place on, as its contract
// says. Buffer and place are two parameters: with a struct of both, each contract would name its fields before and
// after. With a slice from the place on, each caller would have to show how long the slice is, and that what it holds
// is in the buffer.
ghost use Rattle.std.specs.Prelude.{◌≡◌, [], ◌∷◌, ◌++◌, map, ◌+◌, ◌*◌, ◌<◌, ◌≤◌, length, replicate};
ghost use Rattle.journal.specs.Line.{digit_byte, digits, decimal_width, decimal, real, reason_letter, rest_of_line, outcome_fields, recordable, writable, LineFits};
ghost use Rattle.journal.specs.Numbered.{numbered_reply, numbered_into, NumberedFits};
ghost use Rattle.journal.specs.Steps.{comma_fields, Stored};
ghost use Rattle.journal.specs.Writing.{write_reply, write_into};

use crate::{Line, NumberedLine, Recorded};
use common::Refusal;
use score::outcome::SkipReason;

// The byte of a digit, without a branch.
fn digit_byte(d: u64) -> u8
    requires { d < 16 }
    ensures { result ≡ digit_byte d }
{
    (48 + d + 39 * ((d + 6) / 16)) as u8
}

// Writes the last w digits of n to a base, the highest first; the lowest is stored first.
fn put_digits(out: &mut [u8], at: usize, base: u64, w: usize, n: u64)
    requires { (at + w ≤ length out.old) × (0 < base) × (base ≤ 16) }
    ensures { Stored out.old at (digits base w n) out.new }
{
    let mut left = n;
    // It loops over places: after `out[at..at + w].iter_mut().rev()` a proof doesn't know what `out` holds.
    for i in (0..w).rev() {
        out[at + i] = digit_byte(left % base);
        left = left / base;
    }
}

pub(crate) fn put_byte(out: &mut [u8], at: usize, b: u8)
    requires { at < length out.old }
    ensures { Stored out.old at (b ∷ []) out.new }
{
    out[at] = b;
}

#[tactic(auto, unfolding(crate::specs::Line::decimal_width))]
fn decimal_width(n: usize) -> usize
    ensures { (result ≡ decimal_width n) × (result ≤ 3) }
{
    if n < 10 {
        return 1;
    }
    if n < 100 {
        return 2;
    }
    3
}

// Writes a number below 1000, and returns the place behind it.
pub(crate) fn put_decimal(out: &mut [u8], at: usize, n: usize) -> usize
    requires { at + 3 ≤ length out.old }
    ensures { (result ≡ at + decimal_width n) × Stored out.old at (decimal n) out.new × (result ≤ at + 3) }
{
    let w = decimal_width(n);
    put_digits(out, at, 10, w, n as u64);
    at + w
}

// Writes reals, each behind a comma.
fn put_reals(out: &mut [u8], at: usize, xs: &[f64])
    requires { at + 17 * length xs.now ≤ length out.old }
    ensures { Stored out.old at (comma_fields (map real xs.now)) out.new }
{
    for (i, x) in xs.iter().enumerate() {
        let position = at + 17 * i;
        out[position] = b',';
        put_digits(out, position + 1, 16, 16, float::to_bits(*x));
    }
}

// Writes eight minus signs, each behind a comma.
fn put_minuses(out: &mut [u8], at: usize)
    requires { at + 16 ≤ length out.old }
    ensures { Stored out.old at (comma_fields (replicate 8 (45 ∷ []))) out.new }
{
    out[at..at + 16].copy_from_slice(b",-,-,-,-,-,-,-,-");
}

// The letter of a skip reason, which only lines have; `From` gives a reason's number.
#[tactic(auto, unfolding(crate::specs::Line::reason_letter))]
fn reason_letter(reason: SkipReason) -> u8
    ensures { result ≡ reason_letter reason }
{
    match reason {
        SkipReason::HostFailed => b'H',
        SkipReason::BadCamera => b'C',
        SkipReason::NoMean => b'E',
        SkipReason::NoNumber => b'N',
    }
}

// Writes the outcome's letter, what follows it, and the newline, and returns the place behind them.
fn put_outcome(out: &mut [u8], at: usize, outcome: Recorded) -> usize
    requires { at + 139 ≤ length out.old }
    ensures { (result ≡ at + length (rest_of_line (outcome_fields outcome))) × Stored out.old at (rest_of_line (outcome_fields outcome)) out.new }
{
    put_byte(out, at, b',');
    match outcome {
        Ok(r) => {
            put_byte(out, at + 1, b'S');
            let numbers: [f64; 8] = r.into();
            put_reals(out, at + 2, &numbers);
            put_byte(out, at + 138, b'\n');
            at + 139
        }
        Err(reason) => {
            put_byte(out, at + 1, reason_letter(reason));
            put_minuses(out, at + 2);
            put_byte(out, at + 18, b'\n');
            at + 19
        }
    }
}

#[tactic(auto, unfolding(crate::specs::Line::recordable))]
fn is_recordable(outcome: Recorded) -> bool
    ensures { result ≡ recordable outcome }
{
    match outcome {
        Ok(r) => !r.score.is_nan(),
        Err(_) => true,
    }
}

#[tactic(auto, unfolding(crate::specs::Line::writable))]
fn is_writable(line: Line) -> bool
    ensures { result ≡ writable line }
{
    (line.number <= 655) & (line.round <= 16) & is_recordable(line.outcome)
}

// Writes number and round, parted by a comma, and returns the place behind them.
fn put_head(out: &mut [u8], number: usize, round: usize) -> usize
    requires { 7 ≤ length out.old }
    ensures { (result ≡ decimal_width number + (decimal_width round + 1)) × Stored out.old 0 (decimal number ++ 44 ∷ decimal round) out.new × (result ≤ 7) }
{
    let n = put_decimal(out, 0, number);
    put_byte(out, n, b',');
    put_decimal(out, n + 1, round)
}

// Writes the line to the front of the buffer, or refuses it and writes nothing. The contract ensures that the line's
// numbers fit, since those of every line that a program holds do; so what is written is read back.
pub fn write_line(line: Line, out: &mut [u8]) -> Result<usize, Refusal>
    ensures reply { result ≡ write_reply line out.old }
    ensures written { out.new ≡ write_into line out.old }
    ensures fits { LineFits line }
{
    if (out.len() < 256) | !is_writable(line) {
        return Err(Refusal::NotWritable);
    }
    let at = put_head(out, line.number, line.round);
    let numbers: [f64; 6] = line.seed.into();
    put_reals(out, at, &numbers);
    Ok(put_outcome(out, at + 102, line.outcome))
}

// Writes such a line too, or refuses it and writes nothing: also where its reason's number is none.
pub fn write_numbered(line: NumberedLine, out: &mut [u8]) -> Result<usize, Refusal>
    ensures reply { result ≡ numbered_reply line out.old }
    ensures written { out.new ≡ numbered_into line out.old }
    ensures fits { NumberedFits line }
{
    let line = Line::try_from(line)?;
    write_line(line, out)
}
