// The square root that IEEE 754 asks for, worked out from the bits of an f64 with whole numbers. specs/Root.antt
// defines it, and specs/Theorem.antt says what is proved of the definition.
//
// A guess from a short fixed-point calculation is checked exactly and, if it fails, the digits are worked out one by
// one, so the answer does not depend on the guess. Every loop has a constant number of turns.

#![tactic(auto)]

mod digits;
pub mod estimate;
pub mod from_guess;
pub mod laws;
pub mod machine;
pub mod operand;

ghost use Rattle.std.specs.Prelude.{◌≡◌, ◌*◌, ◌^◌};
ghost use Rattle.std.specs.Float.{binary64};
ghost use Rattle.root.specs.Root.{root_of, root};
ghost use Rattle.root.specs.Operand.{Bounded};

use crate::estimate::reciprocal_root;
use crate::from_guess::Radicand;
use crate::operand::{Operand, Scaled, decompose};

// The root of s, rounded. The root of significand * 4^26 has 53 digits, the leading one of which adds 1 to the
// exponent's field.
fn rounded(s: Scaled, guess: u32) -> f64
    requires { Bounded s }
    ensures { result ≡ root_of binary64 (s.significand * 4 ^ s.half) }
{
    let radicand = Radicand {
        significand: s.significand,
        guess,
    };
    let q = radicand.nearest_root();
    f64::from_bits((s.half - 26) * 0x10_0000_0000_0000 + q)
}

// The root of s from the estimate.
fn estimated(s: Scaled) -> f64
    requires { Bounded s }
    ensures { result ≡ root_of binary64 (s.significand * 4 ^ s.half) }
{
    rounded(s, reciprocal_root(s.significand))
}

// The square root, correctly rounded.
pub fn sqrt(x: f64) -> f64
    ensures { result ≡ root binary64 x }
{
    match decompose(x) {
        Operand::Known(r) => r,
        Operand::Positive(s) => estimated(s),
    }
}
