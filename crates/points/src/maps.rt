// The point maps: the pixels of a tilted and distorting camera, moved to where a camera without tilt, or without tilt
// and distortion, has them. Points are read from a lent slice, x then y, and written to the front of a lent
// destination. A refusal writes nothing.

ghost use Rattle.std.specs.Prelude.{◌≡◌};
ghost use Rattle.camera.specs.Intrinsics.{pixel_to_sensor};
ghost use Rattle.camera.specs.declared.math.Pt2.{Pt2};
ghost use Rattle.camera.specs.Sensor.{tilt_projection_matrix, apply_homography_inverse};
ghost use Rattle.camera.specs.Undistortion.{undistorted};
ghost use Rattle.points.specs.Maps.{map_inverse, map_reply, map_destination};

use crate::linalg;
use camera::distortion::BrownConrady5;
use camera::intrinsics::{FxFyCxCy, pixel_to_sensor, sensor_to_pixel};
use camera::math::Pt2;
use camera::sensor;
use camera::sensor::TiltTrig;
use common::Refusal;

// The inverse of the tilt's matrix, unless something is refused.
fn map_inverse(h: [[f64; 3]; 3], numbers: usize, room: usize) -> Result<[[f64; 3]; 3], Refusal>
    ensures { result ≡ map_inverse h numbers room }
{
    linalg::check_lengths(numbers, room)?;
    sensor::checked_inverse(h)
}

// A pixel on the sensor, back through the tilt.
fn without_tilt(k: FxFyCxCy, h_inv: [[f64; 3]; 3], pixel: Pt2) -> Pt2
    ensures { result ≡ apply_homography_inverse h_inv (pixel_to_sensor k pixel) }
{
    sensor::apply_homography_inverse(h_inv, pixel_to_sensor(k, pixel))
}

// The pixels of a sensor that is not tilted, each taken through `lens` on the way. Intrinsics, tilt, points and
// destination are arguments of their own, here and below, since no struct of the crates below holds two of them.
#[tactic(auto, using(crate::proofs::Whole::even_list_written_whole))]
fn map_pixels<F: Fn(Pt2) -> Pt2>(
    k: FxFyCxCy,
    trig: TiltTrig,
    lens: F,
    points: &[f64],
    to: &mut [f64],
) -> Result<(), Refusal>
    requires { F.IsAlwaysCallable lens }
    ensures reply { result ≡ map_reply (tilt_projection_matrix trig) points.now to.old }
    ensures destination { (f : Pt2 → Pt2) → ((p q : Pt2) → F.post lens p q → q ≡ f p) → to.new ≡ map_destination k f (tilt_projection_matrix trig) points.now to.old }
{
    let h = sensor::tilt_projection_matrix(trig);
    let h_inv = map_inverse(h, points.len(), to.len())?;
    linalg::map_points(
        |p| sensor_to_pixel(k, lens(without_tilt(k, h_inv, p))),
        points,
        to,
    );
    Ok(())
}

// The pixels of a sensor that is not tilted, from those of one that is.
pub fn untilt_points(
    k: FxFyCxCy,
    trig: TiltTrig,
    points: &[f64],
    to: &mut [f64],
) -> Result<(), Refusal>
    ensures reply { result ≡ map_reply (tilt_projection_matrix trig) points.now to.old }
    ensures destination { to.new ≡ map_destination k (λ p. p) (tilt_projection_matrix trig) points.now to.old }
{
    map_pixels(k, trig, |p| p, points, to)
}

// The pixels of a camera with neither tilt nor distortion, from those of one with both.
pub fn ideal_points(
    k: FxFyCxCy,
    b: BrownConrady5,
    iters: u32,
    trig: TiltTrig,
    points: &[f64],
    to: &mut [f64],
) -> Result<(), Refusal>
    ensures reply { result ≡ map_reply (tilt_projection_matrix trig) points.now to.old }
    ensures destination { to.new ≡ map_destination k (undistorted b iters) (tilt_projection_matrix trig) points.now to.old }
{
    map_pixels(
        k,
        trig,
        |p| camera::undistort::undistort(b, iters, p),
        points,
        to,
    )
}
