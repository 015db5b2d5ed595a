// Rust's `abs`, `is_finite`, `is_nan`, `min`, `max`, `clamp`, `to_bits` and `from_bits` on f64, each equal to a
// definition over the kit's IEEE 754 values; whether a list's numbers are all finite; and whether a number is within a
// limit.

#![tactic(auto)]

pub mod laws;

ghost use Rattle.std.specs.Prelude.{◌≡◌, cond};
ghost use Rattle.std.specs.Float.{binary64};
ghost use Rattle.std.specs.Float.Ieee.{is_nan, of_bits};
ghost use Rattle.float.specs.Float.{abs_of, within, is_finite, min_of, max_of, clamp_of, bits_of};
ghost use Rattle.float.specs.Finite.{all_finite};

// The magnitude: -0 becomes +0, and NaN stays.
#[tactic(auto, using(crate::proofs::Library::library_abs_agrees))]
pub fn abs(x: f64) -> f64
    ensures { result ≡ abs_of x }
{
    x.abs()
}

// At most the limit in size: the limit itself is, and NaN isn't.
#[tactic(auto, unfolding(crate::specs::Float::within))]
pub fn within(limit: f64, x: f64) -> bool
    ensures { result ≡ within limit x }
{
    abs(x) <= limit
}

// Whether x is neither an infinity nor NaN.
#[tactic(auto, using(crate::proofs::Library::library_is_finite_agrees))]
pub fn is_finite(x: f64) -> bool
    ensures { result ≡ is_finite x }
{
    x.is_finite()
}

pub fn all_finite(numbers: &[f64]) -> bool
    ensures { result ≡ all_finite numbers.now }
{
    numbers.iter().all(|x| is_finite(*x))
}

pub fn is_nan(x: f64) -> bool
    ensures { result ≡ is_nan x }
{
    x.is_nan()
}

// The second where it is the better one or the first is NaN, and otherwise the first. It is used in place of std's
// `min` and `max`, which leave open which of two equal zeros they give.
fn better_of(x: f64, y: f64, second: bool) -> f64
    ensures { result ≡ cond (is_nan x) y (cond second y x) }
{
    if is_nan(x) {
        return y;
    }
    if second { y } else { x }
}

// The lower of two numbers, the first where they are equal, and the other one where one is NaN.
#[tactic(auto, unfolding(crate::specs::Float::min_of))]
pub fn min(x: f64, y: f64) -> f64
    ensures { result ≡ min_of x y }
{
    better_of(x, y, y < x)
}

// The higher of two numbers, likewise.
#[tactic(auto, unfolding(crate::specs::Float::max_of))]
pub fn max(x: f64, y: f64) -> f64
    ensures { result ≡ max_of x y }
{
    better_of(x, y, x < y)
}

// x brought to the nearer end where it lies outside low ..= high; NaN and -0 stay. std's `clamp` requires low <= high,
// and this one takes any two ends.
#[tactic(auto, unfolding(crate::specs::Float::clamp_of))]
pub fn clamp(x: f64, low: f64, high: f64) -> f64
    ensures { result ≡ clamp_of x low high }
{
    if x < low {
        return low;
    }
    if high < x {
        return high;
    }
    x
}

// The bits of x; of any NaN the one pattern, whatever bits the machine holds.
#[tactic(auto, using(crate::proofs::Library::library_to_bits_agrees))]
pub fn to_bits(x: f64) -> u64
    ensures { result ≡ bits_of x }
{
    std::num::f64_to_bits_with_nan(x)
}

// The float with these bits; those of any NaN give a NaN.
pub fn from_bits(bits: u64) -> f64
    ensures { result ≡ of_bits binary64 bits }
{
    std::num::f64_from_bits_with_nan(bits)
}
