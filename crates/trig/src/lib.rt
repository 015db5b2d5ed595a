// Sine and cosine of a number of at most 0.5 in size, by eight terms of their power series: the same bits on every
// computer. Any other argument, NaN too, is refused. How near the answers are to the exact sums is
// `specs/Theorem.antt`.

#![tactic(auto)]

pub mod laws;

ghost use Rattle.std.specs.Prelude.{◌≡◌, ◌≤◌, ◌<◌, cond, Ok, Err};
ghost use Rattle.common.specs.declared.Refusal.TheVariants.{TiltTooLarge};
ghost use Rattle.trig.specs.Series.{sines, cosines, coefficient_of, horner_of, series_of};
ghost use Rattle.trig.specs.Answer.{tilt_too_large, answer_of};

use common::Refusal;

// Entry n: 1 / n!, with the sign of the series' term, rounded to nearest. One rule is proved over all entries:
// `coefficient`.
const COEFFICIENTS: [f64; 16] = [
    1.0,
    1.0,
    -0.5,
    -0.16666666666666666,
    0.041666666666666664,
    0.008333333333333333,
    -0.001388888888888889,
    -0.0001984126984126984,
    2.48015873015873e-05,
    2.7557319223985893e-06,
    -2.755731922398589e-07,
    -2.505210838544172e-08,
    2.08767569878681e-09,
    1.6059043836821613e-10,
    -1.1470745597729725e-11,
    -7.647163731819816e-13,
];

fn coefficient(n: usize) -> f64
    requires { n < 16 }
    ensures { result ≡ coefficient_of n }
{
    COEFFICIENTS[n]
}

// The sum of eight terms, from the last coefficient to the first: `first` is 0 for the cosine and 1 for the sine. The
// loop goes over indices, since one table holds the coefficients of both sums and each sum takes every other one.
#[tactic(auto, unfolding(crate::specs::Series::horner_of))]
fn horner(first: usize, q: f64) -> f64
    requires { first ≤ 1 }
    ensures { result ≡ horner_of q 7 first }
{
    let mut sum = coefficient(first + 14);
    for j in (0..7).rev() {
        sum = sum * q + coefficient(first + 2 * j);
    }
    sum
}

// The two sums, for any number; of one that `tilt_too_large` passes they are its sine and its cosine.
#[tactic(auto, unfolding(crate::specs::Series::series_of))]
pub fn sine_sum(x: f64) -> f64
    ensures { result ≡ series_of sines x }
{
    horner(1, x * x) * x
}

#[tactic(auto, unfolding(crate::specs::Series::series_of))]
pub fn cosine_sum(x: f64) -> f64
    ensures { result ≡ series_of cosines x }
{
    horner(0, x * x)
}

// Whether a call refuses x: NaN, and a number beyond 0.5 in size.
pub fn tilt_too_large(x: f64) -> bool
    ensures { result ≡ tilt_too_large x }
{
    // The square decides most cases, and the series needs it anyway: a rounded square keeps the order of sizes.
    if x * x < 0.5 * 0.5 {
        return false;
    }
    !float::within(0.5, x)
}

// The number itself, or a refusal.
fn within_half(x: f64) -> Result<f64, Refusal>
    ensures { result ≡ cond (tilt_too_large x) (Err TiltTooLarge) (Ok x) }
{
    if tilt_too_large(x) {
        return Err(Refusal::TiltTooLarge);
    }
    Ok(x)
}

#[tactic(auto, unfolding(crate::specs::Answer::answer_of))]
pub fn sine(x: f64) -> Result<f64, Refusal>
    ensures { result ≡ answer_of sines x }
{
    within_half(x).map(sine_sum)
}

#[tactic(auto, unfolding(crate::specs::Answer::answer_of))]
pub fn cosine(x: f64) -> Result<f64, Refusal>
    ensures { result ≡ answer_of cosines x }
{
    within_half(x).map(cosine_sum)
}
