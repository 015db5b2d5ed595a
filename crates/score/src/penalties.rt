// A candidate's score: the mean error and the penalties.
// Each function equals its formula, rounded operation by operation, for every input.

ghost use Rattle.std.specs.Prelude.{◌≡◌};
ghost use Rattle.float.specs.Binary64.{◌+₆₄◌, ◌-₆₄◌, ◌*₆₄◌, ◌/₆₄◌};
ghost use Rattle.float.specs.Float.{max_of};
ghost use Rattle.score.specs.Penalties.{quarter, distortion_penalty, tilt_penalty, centre_penalty, score_of};
ghost use Rattle.float.specs.Literals.{one₆₄};

use crate::pinhole::PinholeCamera;
use camera::distortion::BrownConrady5;
use camera::intrinsics::FxFyCxCy;
use camera::math::Pt2;
use camera::sensor::ScheimpflugParams;

fn radial_complexity(distortion: BrownConrady5) -> f64
    ensures { result ≡ distortion.k1 *₆₄ distortion.k1 +₆₄ distortion.k2 *₆₄ distortion.k2 +₆₄ quarter *₆₄ distortion.k3 *₆₄ distortion.k3 }
{
    distortion.k1 * distortion.k1
        + distortion.k2 * distortion.k2
        + 0.25 * distortion.k3 * distortion.k3
}

#[tactic(auto, unfolding(crate::specs::Penalties::distortion_penalty))]
pub fn distortion_complexity(distortion: BrownConrady5) -> f64
    ensures { result ≡ distortion_penalty distortion }
{
    let radial = radial_complexity(distortion);
    let tangential = distortion.p1 * distortion.p1 + distortion.p2 * distortion.p2;
    0.25 * (radial + tangential)
}

fn squared_tilt(sensor: ScheimpflugParams) -> f64
    ensures { result ≡ sensor.tilt_x *₆₄ sensor.tilt_x +₆₄ sensor.tilt_y *₆₄ sensor.tilt_y }
{
    sensor.tilt_x * sensor.tilt_x + sensor.tilt_y * sensor.tilt_y
}

#[tactic(auto, unfolding(crate::specs::Penalties::tilt_penalty))]
pub fn tilt_complexity(sensor: ScheimpflugParams) -> f64
    ensures { result ≡ tilt_penalty sensor }
{
    0.25 * squared_tilt(sensor)
}

// The number or 1, whichever is higher; 1 for NaN. One comparison is enough, since it is false for NaN.
fn at_least_one(x: f64) -> f64
    ensures { result ≡ max_of x one₆₄ }
{
    if 1.0 <= x { x } else { 1.0 }
}

// The principal point's distance from the centre, in focal lengths.
fn relative_offset(intrinsics: FxFyCxCy, center: Pt2) -> Pt2
    ensures { result ≡ record { x = (intrinsics.cx -₆₄ center.x) /₆₄ max_of intrinsics.fx one₆₄; y = (intrinsics.cy -₆₄ center.y) /₆₄ max_of intrinsics.fy one₆₄ } }
{
    Pt2 {
        x: (intrinsics.cx - center.x) / at_least_one(intrinsics.fx),
        y: (intrinsics.cy - center.y) / at_least_one(intrinsics.fy),
    }
}

// The weight is 0.0; the product stays, since it carries a NaN.
#[tactic(auto, unfolding(crate::specs::Penalties::centre_penalty))]
pub fn principal_point_complexity(intrinsics: FxFyCxCy, center: Pt2) -> f64
    ensures { result ≡ centre_penalty intrinsics center }
{
    0.0 * relative_offset(intrinsics, center).squared_norm()
}

// The mean error and the penalties of the distortion and the tilt, summed in this order.
fn score_without_centre(mean: f64, dist: BrownConrady5, sensor: ScheimpflugParams) -> f64
    ensures { result ≡ mean +₆₄ distortion_penalty dist +₆₄ tilt_penalty sensor }
{
    mean + distortion_complexity(dist) + tilt_complexity(sensor)
}

// The mean error and the three penalties, summed in this order.
#[tactic(auto, unfolding(crate::specs::Penalties::score_of))]
pub fn candidate_score(
    mean: f64,
    camera: PinholeCamera,
    sensor: ScheimpflugParams,
    center: Pt2,
) -> f64
    ensures { result ≡ score_of mean camera sensor center }
{
    score_without_centre(mean, camera.dist, sensor) + principal_point_complexity(camera.k, center)
}
