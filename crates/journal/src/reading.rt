// The parser: the line that the bytes would be is made from them by place alone; it is written to a buffer, and where the bytes begin
// as it is written, it is the line that stands there.
ghost use Rattle.std.specs.Prelude.{◌≡◌, ◌≤◌, length, get_or, drop};
ghost use Rattle.seeds.specs.Layout.{seed_at};
ghost use Rattle.journal.specs.Reading.{digit_of, number_at, decimal_width_at, real_at, reals, scored_at, reason_of, outcome_at, unchecked_line, begins, newlines, line_number_of, read_line, position_after};

use crate::writing::write_line;
use crate::{Line, Read, Recorded, ScoredFields};
use score::outcome::SkipReason;
use seeds::CandidateSeed;

// What is left behind the first n bytes.
fn after(s: &[u8], n: usize) -> &[u8]
    ensures { result.now ≡ drop n s.now }
{
    &s[n.min(s.len())..]
}

// The byte at a place, 0 from the end on.
fn byte_at(s: &[u8], at: usize) -> u8
    ensures { result ≡ get_or s.now at 0 }
{
    s.get(at).copied().unwrap_or(0)
}

// A digit's value; of any other byte some number below 16. There is no branch, which random digits would make slow.
#[tactic(auto, unfolding(crate::specs::Reading::digit_of))]
fn digit_of(c: u8) -> u64
    ensures { result ≡ digit_of c }
{
    ((c % 16 + 9 * (c / 64)) % 16) as u64
}

// The number of the first w bytes, to a base. w may go past the end, where each byte reads as 0: so it loops over
// places.
fn number_at(s: &[u8], base: u64, w: usize) -> u64
    requires { (base ≤ 16) × (w ≤ 16) }
    ensures { result ≡ number_at base w s.now }
{
    let mut n = 0;
    for i in 0..w {
        n = base * n + digit_of(byte_at(s, i));
    }
    n
}

// How many decimal digits stand at the front.
#[tactic(auto, unfolding(crate::specs::Reading::decimal_width_at))]
fn decimal_width_at(s: &[u8]) -> usize
    ensures { (result ≡ decimal_width_at s.now) × (result ≤ 3) }
{
    if byte_at(s, 1) == b',' {
        return 1;
    }
    if byte_at(s, 2) == b',' {
        return 2;
    }
    3
}

#[tactic(auto, unfolding(crate::specs::Reading::real_at))]
fn real_at(s: &[u8]) -> f64
    ensures { result ≡ real_at s.now }
{
    // Where sixteen bytes are left, one test of the length serves for all of them.
    if let Some(digits) = s.get(..16) {
        return float::from_bits(number_at(digits, 16, 16));
    }
    float::from_bits(number_at(s, 16, 16))
}

// Reads as many reals as `into` holds, each behind a comma.
fn read_reals(s: &[u8], into: &mut [f64])
    ensures { into.new ≡ reals (length into.old) s.now }
{
    let mut rest = s;
    for x in into.iter_mut() {
        *x = real_at(after(rest, 1));
        rest = after(rest, 17);
    }
}

// The skip reason of a letter, which only lines have; `TryFrom` reads a reason from its number.
#[tactic(auto, unfolding(crate::specs::Reading::reason_of))]
fn reason_of(c: u8) -> Option<SkipReason>
    ensures { result ≡ reason_of c }
{
    match c {
        b'H' => Some(SkipReason::HostFailed),
        b'C' => Some(SkipReason::BadCamera),
        b'E' => Some(SkipReason::NoMean),
        b'N' => Some(SkipReason::NoNumber),
        _ => None,
    }
}

fn scored_at(s: &[u8]) -> ScoredFields
    ensures { result ≡ scored_at (reals 8 s.now) }
{
    let mut eight = [0.0; 8];
    read_reals(s, &mut eight);
    eight.into()
}

fn outcome_at(s: &[u8]) -> Option<Recorded>
    ensures { result ≡ outcome_at s.now }
{
    let c = byte_at(s, 1);
    if c == b'S' {
        return Some(Ok(scored_at(after(s, 2))));
    }
    let reason = reason_of(c)?;
    Some(Err(reason))
}

fn seed_at(s: &[u8]) -> CandidateSeed
    ensures { result ≡ seed_at (reals 6 s.now) 0 }
{
    let mut six = [0.0; 6];
    read_reals(s, &mut six);
    six.into()
}

// The line that the bytes would be.
fn unchecked_line(s: &[u8]) -> Option<Line>
    ensures { result ≡ unchecked_line s.now }
{
    let a = decimal_width_at(s);
    let number = number_at(s, 10, a);
    let from_round = after(s, a + 1);
    let b = decimal_width_at(from_round);
    let round = number_at(from_round, 10, b);
    let from_seed = after(from_round, b);
    let seed = seed_at(from_seed);
    let outcome = outcome_at(after(from_seed, 102))?;
    Some(Line {
        number: number as usize,
        round: round as usize,
        seed,
        outcome,
    })
}

// Whether s begins with w.
fn begins_with(s: &[u8], w: &[u8]) -> bool
    ensures { result ≡ begins w.now s.now }
{
    s.starts_with(w)
}

pub fn count_newlines(s: &[u8]) -> usize
    ensures { (result ≡ newlines s.now) × (result ≤ length s.now) }
{
    let mut count = 0;
    for c in s {
        if *c == b'\n' {
            count += 1;
        }
    }
    count
}

// The number of the line that stands at a place. Bytes and place are two parameters, here and in `read_line`: the
// struct of both is the reader's, in a crate above this one, and the walk has no such struct.
fn not_a_line(bytes: &[u8], at: usize) -> Read
    requires { at ≤ length bytes.now }
    ensures { result ≡ Read.NotALine (line_number_of bytes.now at) }
{
    Read::NotALine(count_newlines(&bytes[..at]) + 1)
}

// What stands at a place of a journal.
pub fn read_line(bytes: &[u8], at: usize) -> Read
    ensures { result ≡ read_line bytes.now at }
{
    if bytes.len() <= at {
        return Read::End;
    }
    let s = &bytes[at..];
    let Some(line) = unchecked_line(s) else {
        return not_a_line(bytes, at);
    };
    let mut buffer = [0u8; 256];
    let Ok(n) = write_line(line, &mut buffer) else {
        return not_a_line(bytes, at);
    };
    if begins_with(s, &buffer[..n]) {
        return Read::Got(line, at + n);
    }
    not_a_line(bytes, at)
}

// The place from which the next line is read: behind a line, else where it was.
pub fn position_after(answer: Read, at: usize) -> usize
    ensures { result ≡ position_after answer at }
{
    match answer {
        Read::Got(_, next) => next,
        Read::End => at,
        Read::NotALine(_) => at,
    }
}
