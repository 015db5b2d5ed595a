// A float taken apart for the root: a root that is known at once, or a significand and an even exponent.

ghost use Rattle.std.specs.Prelude.{◌≡◌, ◌+◌, ◌*◌, ◌^◌, ◌<◌, ◌≤◌, from_bits};
ghost use Rattle.std.specs.Float.{binary64};
ghost use Rattle.root.specs.Operand.{Bounded, Decomposed};
ghost use Rattle.root.specs.Exponent.{shifted};

// The value significand * 4^(half - 1074). Contracts give the bounds, as `Bounded`, since with ghost fields each place
// that makes such a value would have to prove four bounds.
#[derive(Clone, Copy)]
pub struct Scaled {
    pub significand: u64,
    pub half: u64,
}

// A float as the root sees it. It is no `Result`, since neither case is a failure.
#[derive(Clone, Copy)]
pub enum Operand {
    // The root itself: of a zero, an infinity, a NaN, a negative number.
    Known(f64),
    // A number above 0.
    Positive(Scaled),
}

// The exponent of a value whose leading digit stands at the place 2^(place - 1075): that of its last digit.
fn exponent(place: u64) -> i64
    requires { place < 2100 }
    ensures { shifted result ≡ place + 1021 }
{
    place as i64 - 1127
}

// The exponent as a natural number: 2148 is even and takes every exponent to 0 or more, so that halves are rounded
// down.
fn natural_exponent(e: i64) -> u64
    requires { (0 < shifted e) × (shifted e < 3120) }
    ensures { result ≡ shifted e }
{
    (e + 2148) as u64
}

// m * 2^e with an even exponent: half of e, rounded down, and m is doubled where e is odd.
fn with_even_exponent(m: u64, e: i64) -> Scaled
    requires { (2 ^ 52 ≤ m) × (m < 2 ^ 53) × (1022 ≤ shifted e) × (shifted e < 3120) }
    ensures { Bounded result × (result.significand * 4 ^ result.half ≡ m * 2 ^ shifted e) }
{
    let g = natural_exponent(e);
    Scaled {
        significand: m << (g % 2),
        half: g / 2,
    }
}

// The bits of a subnormal number: the leading digit is moved to the place that it has in a normal number.
fn subnormal(b: u64) -> Scaled
    requires { (0 < b) × (b < 2 ^ 52) }
    ensures { Decomposed (from_bits binary64 b) (Operand.Positive result) }
{
    let z = (b.leading_zeros() - 11) as u64;
    with_even_exponent(b << z, exponent(53 - z))
}

// The bits of a normal number: the field of the exponent, and the leading digit that the bits leave out.
fn normal(b: u64) -> Scaled
    requires { (2 ^ 52 ≤ b) × (b < 0x7ff0_0000_0000_0000) }
    ensures { Decomposed (from_bits binary64 b) (Operand.Positive result) }
{
    let m = b % 0x10_0000_0000_0000 + 0x10_0000_0000_0000;
    with_even_exponent(m, exponent((b >> 52) + 52))
}

// The tests compare bits: those of positive numbers are in the numbers' order, and those with a sign bit are above them
// all.
pub fn decompose(x: f64) -> Operand
    ensures { Decomposed x result }
{
    if x.is_nan() {
        return Operand::Known(f64::NAN);
    }
    let b = f64::to_bits(x);
    if b == 0 {
        return Operand::Known(0.0);
    }
    if b < 0x10_0000_0000_0000 {
        return Operand::Positive(subnormal(b));
    }
    if b < 0x7ff0_0000_0000_0000 {
        return Operand::Positive(normal(b));
    }
    if b < 0x8000_0000_0000_0000 {
        return Operand::Known(x);
    }
    if b == 0x8000_0000_0000_0000 {
        return Operand::Known(-0.0);
    }
    Operand::Known(f64::NAN)
}
