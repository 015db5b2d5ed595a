// The integer square root digit by digit, in a fixed number of steps. from_guess.rt falls back on it.

ghost use Rattle.std.specs.Prelude.{◌≡◌, ◌+◌, ◌*◌, ◌^◌, ◌<◌, ◌≤◌};

// The whole part of a root, and the number minus its square: at most twice the root, else the root would be one more.
#[derive(Clone, Copy)]
pub struct SquareRoot {
    pub root: u64,
    pub remainder: u64,
    pub ghost least: { remainder ≤ 2 * root },
}

// One more binary digit of the root: the root of four times the number, plus the next base-4 digit.
fn next_digit(p: SquareRoot, d: u64) -> SquareRoot
    requires { (p.root < 2 ^ 52) × (d < 4) }
    ensures { result.root * result.root + result.remainder ≡ 4 * (p.root * p.root + p.remainder) + d }
{
    let remainder = p.remainder * 4 + d;
    let root = p.root * 2;
    if root * 2 < remainder {
        return SquareRoot {
            root: root + 1,
            remainder: remainder - (root * 2 + 1),
        };
    }
    SquareRoot { root, remainder }
}

// The root of m, from its 27 base-4 digits, the highest first. The root of 0 is written out, since `Default` can't be
// derived for a struct with a ghost field.
pub fn isqrt_by_digits(m: u64) -> SquareRoot
    requires { m < 2 ^ 54 }
    ensures { result.root * result.root + result.remainder ≡ m }
{
    let mut p = SquareRoot {
        root: 0,
        remainder: 0,
    };
    for place in (0..27u64).rev() {
        p = next_digit(p, (m >> (2 * place)) % 4);
    }
    p
}

// 26 more digits of a root: the root of the number times 4^26.
pub fn extend_by_digits(q: SquareRoot) -> SquareRoot
    requires { q.root < 2 ^ 27 }
    ensures { result.root * result.root + result.remainder ≡ (q.root * q.root + q.remainder) * 4 ^ 26 }
{
    let mut p = q;
    for _ in 0..26u64 {
        p = next_digit(p, 0);
    }
    p
}
