// A line beside the run: what of it must be the run's own, bit by bit, and what it records that can stand for an answer.

ghost use Rattle.std.specs.Prelude.{◌≡◌, ◌&&◌, map};
ghost use Rattle.float.specs.Float.{bits_of, within};
ghost use Rattle.seeds.specs.Layout.{six};
ghost use Rattle.score.specs.Camera.{tangential_bound, valid_camera};
ghost use Rattle.replay.specs.Stand.{same_real, same_reals, is_mean, can_be_scored, can_stand};
ghost use Rattle.replay.specs.Walk.{answers_waiting};

use camera::math::Pt2;
use camera::sensor::ScheimpflugParams;
use journal::{Line, Recorded, ScoredFields};
use score::outcome::Scoring;
use score::penalties::candidate_score;
use score::pinhole::{PinholeCamera, validate_camera};
use search::run::Run;
use seeds::CandidateSeed;

// The same bits; any NaN is any other.
#[tactic(auto, unfolding(crate::specs::Stand::same_real))]
fn is_same_real(x: f64, y: f64) -> bool
    ensures { result ≡ same_real x y }
{
    float::to_bits(x) == float::to_bits(y)
}

// The bits of the six numbers, any NaN as one.
fn bits_of(seed: CandidateSeed) -> [u64; 6]
    ensures { result ≡ map bits_of (six seed) }
{
    <[f64; 6]>::from(seed).map(float::to_bits)
}

#[tactic(auto, unfolding(crate::specs::Stand::same_real, crate::specs::Stand::same_reals))]
fn is_same_seed(a: CandidateSeed, b: CandidateSeed) -> bool
    ensures { result ≡ same_reals (six a) (six b) }
{
    bits_of(a) == bits_of(b)
}

// At most 0.05 in size.
fn is_damped(p: f64) -> bool
    ensures { result ≡ within tangential_bound p }
{
    float::within(0.05, p)
}

// A finite number that isn't below 0.
#[tactic(auto, unfolding(crate::specs::Stand::is_mean))]
fn is_mean(x: f64) -> bool
    ensures { result ≡ is_mean x }
{
    float::is_finite(x) & !(x < 0.0)
}

// Answer's camera check, and damped tangential coefficients.
fn passes_check(camera: PinholeCamera) -> bool
    ensures { result ≡ (valid_camera camera && within tangential_bound camera.dist.p1 && within tangential_bound camera.dist.p2) }
{
    validate_camera(camera) & is_damped(camera.dist.p1) & is_damped(camera.dist.p2)
}

// Whether a scored line's numbers can be an answer's: the camera passes Answer's check and has damped tangential
// coefficients, the mean is one, and the score is the one that Answer would work out from them. The centre is the
// run's, and the tilts are the seed's.
#[tactic(auto, unfolding(crate::specs::Stand::can_be_scored))]
fn can_be_scored(center: Pt2, sensor: ScheimpflugParams, fields: ScoredFields) -> bool
    ensures { result ≡ can_be_scored center sensor fields }
{
    let camera = Scoring::from(fields).camera;
    passes_check(camera)
        & is_mean(fields.mean)
        & is_same_real(
            fields.score,
            candidate_score(fields.mean, camera, sensor, center),
        )
}

// What a line records can be taken for the answer to a seed with these tilts. Of a skip nothing is asked.
fn can_stand(center: Pt2, sensor: ScheimpflugParams, outcome: Recorded) -> bool
    ensures { result ≡ can_stand center sensor outcome }
{
    match outcome {
        Ok(fields) => can_be_scored(center, sensor, fields),
        Err(_) => true,
    }
}

// The line can answer the seed that waits: number, round and seed are the run's own, and what it records can stand.
#[tactic(auto, unfolding(crate::specs::Walk::answers_waiting))]
pub fn answers_waiting(run: Run, line: Line) -> bool
    ensures { result ≡ answers_waiting run line }
{
    (line.number == run.place.number)
        & (line.round == run.place.round)
        & is_same_seed(line.seed, run.waiting.seed)
        & can_stand(run.center, run.waiting.seed.sensor, line.outcome)
}
