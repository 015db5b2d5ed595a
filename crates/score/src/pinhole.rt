// A camera that the host found: its damping and its check.
// Each function equals its rule, rounded operation by operation, for every input.

ghost use Rattle.std.specs.Prelude.{◌≡◌};
ghost use Rattle.score.specs.Camera.{damped, damped_camera, finite_intrinsics, finite_distortion, valid_camera};

use camera::distortion::BrownConrady5;
use camera::intrinsics::FxFyCxCy;

// A pinhole camera with its lens distortion.
#[repr(C)]
#[derive(Clone, Copy, Default)]
pub struct PinholeCamera {
    pub k: FxFyCxCy,
    pub dist: BrownConrady5,
}

// Puts the radial coefficients to 0, and brings the tangential ones within ±0.05.
#[tactic(auto, unfolding(crate::specs::Camera::damped))]
pub fn damp_seed_distortion(distortion: BrownConrady5) -> BrownConrady5
    ensures { result ≡ damped distortion }
{
    BrownConrady5 {
        p1: float::clamp(distortion.p1, -0.05, 0.05),
        p2: float::clamp(distortion.p2, -0.05, 0.05),
        ..BrownConrady5::default()
    }
}

// The camera as it is checked and scored.
pub fn damped_camera(mut found: PinholeCamera) -> PinholeCamera
    ensures { result ≡ damped_camera found }
{
    found.dist = damp_seed_distortion(found.dist);
    found
}

#[tactic(auto, unfolding(crate::specs::Camera::finite_intrinsics))]
fn finite_intrinsics(k: FxFyCxCy) -> bool
    ensures { result ≡ finite_intrinsics k }
{
    float::all_finite(&[k.fx, k.fy, k.cx, k.cy])
}

#[tactic(auto, unfolding(crate::specs::Camera::finite_distortion))]
fn finite_distortion(distortion: BrownConrady5) -> bool
    ensures { result ≡ finite_distortion distortion }
{
    let d = distortion;
    float::all_finite(&[d.k1, d.k2, d.k3, d.p1, d.p2])
}

// Whether every number of the camera is finite and both focal lengths are above 0.
#[tactic(auto, unfolding(crate::specs::Camera::valid_camera))]
pub fn validate_camera(camera: PinholeCamera) -> bool
    ensures { result ≡ valid_camera camera }
{
    finite_intrinsics(camera.k)
        & finite_distortion(camera.dist)
        & (0.0 < camera.k.fx)
        & (0.0 < camera.k.fy)
}
