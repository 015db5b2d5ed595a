// The parts of a candidate's score.
ghost use Rattle.std.specs.Prelude.{◌≡◌};
ghost use Rattle.camera.specs.Sensor.{tilt_projection_matrix};
ghost use Rattle.score.specs.Camera.{damped};
ghost use Rattle.score.specs.Penalties.{distortion_penalty, tilt_penalty, centre_penalty};
ghost use Rattle.score.specs.Rows.{rows_of, error_sum, mean_of};
ghost use Rattle.score.specs.Evaluation.{error_count_of};
ghost use Rattle.capi_records.specs.Scoring.{flat_error_count};

use camera::distortion::BrownConrady5;
use camera::intrinsics::FxFyCxCy;
use camera::math::Pt2;
use camera::sensor::{ScheimpflugParams, TiltTrig};
use capi_records::scoring::ErrorCountReply;
use score::pinhole::PinholeCamera;
use score::{penalties, pinhole};

#[unsafe(no_mangle)]
pub extern "C" fn jc_damp_seed_distortion(distortion: BrownConrady5) -> BrownConrady5
    ensures { result ≡ damped distortion }
{
    pinhole::damp_seed_distortion(distortion)
}

#[unsafe(no_mangle)]
pub extern "C" fn jc_distortion_complexity(distortion: BrownConrady5) -> f64
    ensures { result ≡ distortion_penalty distortion }
{
    penalties::distortion_complexity(distortion)
}

#[unsafe(no_mangle)]
pub extern "C" fn jc_tilt_complexity(sensor: ScheimpflugParams) -> f64
    ensures { result ≡ tilt_penalty sensor }
{
    penalties::tilt_complexity(sensor)
}

#[unsafe(no_mangle)]
pub extern "C" fn jc_principal_point_complexity(k: FxFyCxCy, center: Pt2) -> f64
    ensures { result ≡ centre_penalty k center }
{
    penalties::principal_point_complexity(k, center)
}

// The mean error of the rows that count, with the camera as given; infinity where none counts. Numbers behind the last
// whole row with its flag are not read.
#[unsafe(no_mangle)]
pub extern "C" fn jc_mean_reproj_error(
    camera: PinholeCamera,
    trig: TiltTrig,
    rows: &[f64],
    flags: &[u8],
) -> f64
    ensures { result ≡ mean_of (error_sum camera (tilt_projection_matrix trig) (rows_of rows.now flags.now)) }
{
    score::errors::mean_of_rows(camera, trig, rows, flags)
}

// What the mean of an answer rests on: sum and count of its errors, with the solved camera damped and the sines and
// cosines of the seed's tilts.
#[unsafe(no_mangle)]
pub extern "C" fn jc_count_errors(
    solved: PinholeCamera,
    sensor: ScheimpflugParams,
    rows: &[f64],
    flags: &[u8],
) -> ErrorCountReply
    ensures { result ≡ flat_error_count (error_count_of solved sensor rows.now flags.now) }
{
    score::outcome::count_errors(solved, sensor, rows, flags).into()
}
