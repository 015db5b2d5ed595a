// The root, sine and cosine, the camera without tilt, the tilted sensor and the distortion.
ghost use Rattle.std.specs.Prelude.{◌≡◌};
ghost use Rattle.std.specs.Float.{binary64};
ghost use Rattle.root.specs.Root.{root};
ghost use Rattle.trig.specs.Series.{sines, cosines};
ghost use Rattle.trig.specs.Answer.{answer_of};
ghost use Rattle.camera.specs.Intrinsics.{pixel_to_sensor, sensor_to_pixel};
ghost use Rattle.camera.specs.Matrix.{determinant_of};
ghost use Rattle.camera.specs.Sensor.{tilt_projection_matrix, checked_inverse, apply_homography, apply_homography_inverse};
ghost use Rattle.camera.specs.Distortion.{distorted, distorted_with_jacobian};
ghost use Rattle.camera.specs.Undistortion.{undistorted};
ghost use Rattle.zhang.specs.Zhang.{from_homographies};
ghost use Rattle.capi_records.specs.Camera.{flat_sum, matrix_of, flat_matrix, flat_inverse, flat_estimate};

use camera::distortion::{BrownConrady5, DistortedPoint};
use camera::intrinsics::FxFyCxCy;
use camera::math::Pt2;
use camera::sensor::TiltTrig;
use camera::{distortion, matrix, sensor};
use capi_records::cameras::{CameraReply, InverseReply, Matrix3, SumReply};
use zhang::Conic;

#[unsafe(no_mangle)]
pub extern "C" fn jc_sqrt(x: f64) -> f64
    ensures { result ≡ root binary64 x }
{
    root::sqrt(x)
}

// Sine and cosine of a number of at most 0.5 in size.
#[unsafe(no_mangle)]
pub extern "C" fn jc_sine(x: f64) -> SumReply
    ensures { result ≡ flat_sum (answer_of sines x) }
{
    trig::sine(x).into()
}

#[unsafe(no_mangle)]
pub extern "C" fn jc_cosine(x: f64) -> SumReply
    ensures { result ≡ flat_sum (answer_of cosines x) }
{
    trig::cosine(x).into()
}

#[unsafe(no_mangle)]
pub extern "C" fn jc_pixel_to_sensor(k: FxFyCxCy, pixel: Pt2) -> Pt2
    ensures { result ≡ pixel_to_sensor k pixel }
{
    camera::intrinsics::pixel_to_sensor(k, pixel)
}

#[unsafe(no_mangle)]
pub extern "C" fn jc_sensor_to_pixel(k: FxFyCxCy, sensor: Pt2) -> Pt2
    ensures { result ≡ sensor_to_pixel k sensor }
{
    camera::intrinsics::sensor_to_pixel(k, sensor)
}

#[unsafe(no_mangle)]
pub extern "C" fn jc_tilt_projection_matrix(trig: TiltTrig) -> Matrix3
    ensures { result ≡ flat_matrix (tilt_projection_matrix trig) }
{
    sensor::tilt_projection_matrix(trig).into()
}

#[unsafe(no_mangle)]
pub extern "C" fn jc_determinant(m: Matrix3) -> f64
    ensures { result ≡ determinant_of (matrix_of m) }
{
    matrix::determinant(m.into())
}

#[unsafe(no_mangle)]
pub extern "C" fn jc_inverse(m: Matrix3) -> InverseReply
    ensures { result ≡ flat_inverse (checked_inverse (matrix_of m)) }
{
    sensor::checked_inverse(m.into()).into()
}

#[unsafe(no_mangle)]
pub extern "C" fn jc_apply_homography(h: Matrix3, p: Pt2) -> Pt2
    ensures { result ≡ apply_homography (matrix_of h) p }
{
    sensor::apply_homography(h.into(), p)
}

#[unsafe(no_mangle)]
pub extern "C" fn jc_apply_homography_inverse(h_inv: Matrix3, p: Pt2) -> Pt2
    ensures { result ≡ apply_homography_inverse (matrix_of h_inv) p }
{
    sensor::apply_homography_inverse(h_inv.into(), p)
}

// The numbers come one by one, because they then travel in registers; a struct would go through memory, and reading it
// back stalls the processor. With a struct a call took 13.6 ns, with the numbers 3.6, and the published Rust takes 3.3.
// The header's jc_distort takes the struct apart.
#[unsafe(no_mangle)]
pub extern "C" fn jc_distort_numbers(
    k1: f64,
    k2: f64,
    k3: f64,
    p1: f64,
    p2: f64,
    x: f64,
    y: f64,
) -> Pt2
    ensures { result ≡ distorted (record { k1 = k1; k2 = k2; k3 = k3; p1 = p1; p2 = p2 }) (record { x = x; y = y }) }
{
    distortion::distort(BrownConrady5 { k1, k2, k3, p1, p2 }, Pt2 { x, y })
}

#[unsafe(no_mangle)]
pub extern "C" fn jc_distort_with_jacobian(b: BrownConrady5, p: Pt2) -> DistortedPoint
    ensures { result ≡ distorted_with_jacobian b p }
{
    distortion::distort_with_jacobian(b, p)
}

#[unsafe(no_mangle)]
pub extern "C" fn jc_undistort(b: BrownConrady5, iters: u32, p: Pt2) -> Pt2
    ensures { result ≡ undistorted b iters p }
{
    camera::undistort::undistort(b, iters, p)
}

#[unsafe(no_mangle)]
pub extern "C" fn jc_conic_to_camera(b: Conic) -> CameraReply
    ensures { result ≡ flat_estimate (from_homographies b) }
{
    zhang::from_homographies(b).into()
}
