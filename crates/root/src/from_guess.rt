// The whole number nearest to a root, from a guess at 2^58 / √m: right for every guess, and fast for a near one. The
// root that the guess leads to is taken only where its remainder shows that it or the next number is the nearest; else
// the digits are worked out one by one.

ghost use Rattle.std.specs.Prelude.{◌≡◌, ◌+◌, ◌*◌, ◌^◌, ◌<◌, if◌then◌else◌, nat_lt};
ghost use Rattle.root.specs.NearestRoot.{NearestRoot};

use crate::digits::{extend_by_digits, isqrt_by_digits};

// A number whose root is sought, and a guess at 2^58 / √significand.
#[derive(Clone, Copy)]
pub struct Radicand {
    pub significand: u64,
    pub guess: u32,
    pub ghost positive: { 0 < significand },
    pub ghost below: { significand < 2 ^ 54 },
}

impl Radicand {
    // The root of significand * 2^52, rounded, digit by digit.
    fn nearest_by_digits(self) -> u64
        ensures { NearestRoot (self.significand * 4 ^ 26) result }
    {
        let p = extend_by_digits(isqrt_by_digits(self.significand));
        nearest_whole(p.root, p.remainder)
    }

    // The high digits of a root from the guess.
    fn high_digits(self) -> u64
        ensures { result < 2 ^ 28 }
    {
        ((self.significand >> 22) * u64::from(self.guess)) >> 36
    }

    // The root of significand * 2^52, rounded. h and l are the high and the low digits of a root from the guess, and a
    // is the remainder for h alone. A difference below 0 wraps to a number that the test behind it finds too large.
    pub fn nearest_root(self) -> u64
        ensures { NearestRoot (self.significand * 4 ^ 26) result }
    {
        let h = self.high_digits();
        let a = self.significand.wrapping_sub(h * h);
        if a >= 0x2000_0000 {
            return self.nearest_by_digits();
        }
        let l = low_digits(a, self.guess);
        let d = (a * 0x400_0000).wrapping_sub(2 * h * l);
        if d >= 0x20_0000_0000 {
            return self.nearest_by_digits();
        }
        let root = h * 0x400_0000 + l;
        let remainder = (d * 0x400_0000).wrapping_sub(l * l);
        if remainder <= 3 * root + 2 {
            return nearest_whole(root, remainder);
        }
        self.nearest_by_digits()
    }
}

// The whole number that is nearest to the root: the root lies above root + 1/2 exactly where the remainder is above the
// root.
fn nearest_whole(root: u64, remainder: u64) -> u64
    requires { root < 2 ^ 60 }
    ensures { result ≡ (if nat_lt root remainder then root + 1 else root) }
{
    if root < remainder { root + 1 } else { root }
}

// The 26 binary digits behind the high ones: about half of the remainder a times y.
fn low_digits(a: u64, y: u32) -> u64
    requires { a < 2 ^ 32 }
    ensures { result < 2 ^ 31 }
{
    (a * u64::from(y)) >> 33
}
