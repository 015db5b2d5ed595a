// A finding of the host: what is refused of it, and its outcome.
// Each function equals its rule for every input.

ghost use Rattle.std.specs.Prelude.{◌≡◌, ◌≤◌};
ghost use Rattle.score.specs.Penalties.{score_of};
ghost use Rattle.score.specs.Reasons.{reason_number, reason_numbered};
ghost use Rattle.score.specs.Evaluation.{any_above_one, trig_of, solved_refusal, finding_refusal, enough, scored_as, evaluated, outcome_of, error_count_of};

use crate::errors::{ErrorSum, mean_reproj_error, reproj_error_sum};
use crate::penalties::candidate_score;
use crate::pinhole::{PinholeCamera, damped_camera, validate_camera};
use camera::math::Pt2;
use camera::sensor::{ScheimpflugParams, TiltTrig, tilt_projection_matrix};
use common::Refusal;
use trig::{cosine_sum, sine_sum, tilt_too_large};

// What the host found for a seed: Solved with the camera's nine numbers, or Failed. The interface names both.
#[derive(Clone, Copy)]
pub enum Finding {
    Failed,
    Solved(PinholeCamera),
}

// The camera that the host solved, and sine and cosine of its seed's tilts.
#[derive(Clone, Copy)]
pub struct SolvedCamera {
    pub camera: PinholeCamera,
    pub trig: TiltTrig,
}

// A scored finding: its damped camera, its mean error and its score.
#[derive(Clone, Copy)]
pub struct Scoring {
    pub camera: PinholeCamera,
    pub mean: f64,
    pub score: f64,
}

// Why a finding has no score, in the order of the numbers that other languages are told (`u8::from`).
#[derive(Clone, Copy, Debug, PartialEq, Eq)]
pub enum SkipReason {
    // the host found no camera
    HostFailed = 1,
    // the camera is not valid
    BadCamera = 2,
    // too few rows count, or the mean error is not finite
    NoMean = 3,
    // the score is not a number
    NoNumber = 4,
}

impl From<SkipReason> for u8 {
    ghost from_gives = { λ reason number. number ≡ reason_number reason };

    fn from(reason: SkipReason) -> u8 {
        reason as u8
    }
}

// Any other number is no reason's, and is refused: no line of the journal has it.
impl TryFrom<u8> for SkipReason {
    type Error = Refusal;

    ghost try_from_gives = { λ number reason. reason ≡ reason_numbered number };

    fn try_from(number: u8) -> Result<SkipReason, Refusal> {
        match number {
            1 => Ok(SkipReason::HostFailed),
            2 => Ok(SkipReason::BadCamera),
            3 => Ok(SkipReason::NoMean),
            4 => Ok(SkipReason::NoNumber),
            _ => Err(Refusal::NotWritable),
        }
    }
}

// A finding is scored, or skipped for a reason.
pub type Outcome = Result<Scoring, SkipReason>;

#[tactic(auto, unfolding(crate::specs::Evaluation::any_above_one))]
fn any_above_one(flags: &[u8]) -> bool
    ensures { result ≡ any_above_one flags.now }
{
    flags.iter().any(|flag| *flag > 1)
}

// Rows and flags are two lists, here, below and in Answer: C lends them apart, and `Rows` of score has four
// numbers for each flag, which is known only where nothing is refused.
#[tactic(auto, unfolding(crate::specs::Evaluation::solved_refusal))]
fn solved_refusal(sensor: ScheimpflugParams, rows: &[f64], flags: &[u8]) -> Result<(), Refusal>
    ensures { result ≡ solved_refusal sensor rows.now flags.now }
{
    if flags.len() > 1024 {
        return Err(Refusal::BadRows);
    }
    if rows.len() != 4 * flags.len() {
        return Err(Refusal::BadRows);
    }
    if any_above_one(flags) {
        return Err(Refusal::BadRows);
    }
    if tilt_too_large(sensor.tilt_x) | tilt_too_large(sensor.tilt_y) {
        return Err(Refusal::TiltTooLarge);
    }
    Ok(())
}

// The first refusal of a finding. Of a failed one neither rows nor tilts are read.
#[tactic(auto, unfolding(crate::specs::Evaluation::finding_refusal))]
pub fn finding_refusal(
    finding: Finding,
    sensor: ScheimpflugParams,
    rows: &[f64],
    flags: &[u8],
) -> Result<(), Refusal>
    ensures { result ≡ finding_refusal finding sensor rows.now flags.now }
{
    let Finding::Solved(_) = finding else {
        return Ok(());
    };
    solved_refusal(sensor, rows, flags)
}

// Sine and cosine of each tilt, by the series.
#[tactic(auto, unfolding(crate::specs::Evaluation::trig_of))]
fn trig_of(sensor: ScheimpflugParams) -> TiltTrig
    ensures { result ≡ trig_of sensor }
{
    TiltTrig {
        sin_x: sine_sum(sensor.tilt_x),
        cos_x: cosine_sum(sensor.tilt_x),
        sin_y: sine_sum(sensor.tilt_y),
        cos_y: cosine_sum(sensor.tilt_y),
    }
}

// Whether the counted rows are at least this share, in per cent, of all rows. For a share above 100 there are enough
// only where there are no rows. Otherwise the least number that is enough is worked out from the whole hundreds of rows
// and from the rest, rounded up, so that no product wraps.
fn is_enough(share: usize, counted: u64, all: usize) -> bool
    requires { counted ≤ all }
    ensures { result ≡ enough share counted all }
{
    if 100 < share {
        return all == 0;
    }
    let of_hundreds = share * (all / 100);
    let of_rest = (share * (all % 100)).div_ceil(100);
    of_hundreds + of_rest <= counted as usize
}

// The outcome of a camera with a finite mean error. The tilts are the seed's, and the centre is the run's.
#[tactic(auto, unfolding(crate::specs::Evaluation::scored_as))]
fn scored_outcome(
    mean: f64,
    camera: PinholeCamera,
    sensor: ScheimpflugParams,
    center: Pt2,
) -> Outcome
    ensures { result ≡ scored_as (record { camera = camera; mean = mean; score = score_of mean camera sensor center }) }
{
    let score = candidate_score(mean, camera, sensor, center);
    if score.is_nan() {
        return Err(SkipReason::NoNumber);
    }
    Ok(Scoring {
        camera,
        mean,
        score,
    })
}

// The outcome of a solved camera, damped before it is checked.
fn evaluate_candidate(
    share: usize,
    solved: SolvedCamera,
    sensor: ScheimpflugParams,
    center: Pt2,
    rows: &[f64],
    flags: &[u8],
) -> Outcome
    ensures { result ≡ evaluated share solved sensor center rows.now flags.now }
{
    let camera = damped_camera(solved.camera);
    if !validate_camera(camera) {
        return Err(SkipReason::BadCamera);
    }
    let h = tilt_projection_matrix(solved.trig);
    let errors = reproj_error_sum(camera, h, rows, flags);
    if !is_enough(share, errors.count, flags.len()) {
        return Err(SkipReason::NoMean);
    }
    let mean = mean_reproj_error(errors);
    if !float::is_finite(mean) {
        return Err(SkipReason::NoMean);
    }
    scored_outcome(mean, camera, sensor, center)
}

// The outcome of what the host found, where a mean has to rest on this share of all rows, in per cent.
#[tactic(auto, unfolding(crate::specs::Evaluation::outcome_of))]
pub fn finding_outcome(
    share: usize,
    finding: Finding,
    sensor: ScheimpflugParams,
    center: Pt2,
    rows: &[f64],
    flags: &[u8],
) -> Outcome
    ensures { result ≡ outcome_of share finding sensor center rows.now flags.now }
{
    let Finding::Solved(camera) = finding else {
        return Err(SkipReason::HostFailed);
    };
    let trig = trig_of(sensor);
    let solved = SolvedCamera { camera, trig };
    evaluate_candidate(share, solved, sensor, center, rows, flags)
}

// Sum and count of the errors that a solved camera's mean is worked out from. The camera is damped as for its outcome.
#[tactic(auto, unfolding(crate::specs::Evaluation::error_count_of, crate::specs::Evaluation::errors_with, crate::specs::Rows::tilt_matrix))]
pub fn count_errors(
    camera: PinholeCamera,
    sensor: ScheimpflugParams,
    rows: &[f64],
    flags: &[u8],
) -> Result<ErrorSum, Refusal>
    ensures { result ≡ error_count_of camera sensor rows.now flags.now }
{
    solved_refusal(sensor, rows, flags)?;
    let h = tilt_projection_matrix(trig_of(sensor));
    Ok(reproj_error_sum(damped_camera(camera), h, rows, flags))
}
