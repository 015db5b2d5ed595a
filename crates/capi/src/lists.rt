// Operations on lists of points: the point maps, normalising, the line test, the design rows and the centre.
ghost use Rattle.std.specs.Prelude.{◌≡◌, length};
ghost use Rattle.camera.specs.Sensor.{tilt_projection_matrix};
ghost use Rattle.camera.specs.Undistortion.{undistorted};
ghost use Rattle.points.specs.Maps.{map_reply, map_destination};
ghost use Rattle.points.specs.Linalg.{normalize_reply, normalize_into};
ghost use Rattle.points.specs.Line.{line_reply};
ghost use Rattle.points.specs.Rows.{rows_reply, rows_into};
ghost use Rattle.points.specs.Centre.{centre_reply};
ghost use Rattle.capi_records.specs.Lists.{refusal_number, flat_normalized, flat_line_test, flat_centre};

use camera::intrinsics::FxFyCxCy;
use camera::sensor::TiltTrig;
use capi_records::lists::{CenterReply, LineReply, NormalizeReply, refusal_number};
use points::homography::Pairs;
use points::{centre, maps};
use score::pinhole::PinholeCamera;

// Writes the pixels of a sensor that isn't tilted to the front of `to`: 0, or 17, 18 or 15.
#[unsafe(no_mangle)]
pub extern "C" fn jc_untilt_points(
    k: FxFyCxCy,
    trig: TiltTrig,
    points: &[f64],
    to: &mut [f64],
) -> u8
    ensures number { result ≡ refusal_number (map_reply (tilt_projection_matrix trig) points.now to.old) }
    ensures destination { to.new ≡ map_destination k (λ p. p) (tilt_projection_matrix trig) points.now to.old }
{
    refusal_number(maps::untilt_points(k, trig, points, to))
}

// Writes the pixels of a camera with neither tilt nor distortion to the front of `to`: 0, or 17, 18 or 15.
#[unsafe(no_mangle)]
pub extern "C" fn jc_ideal_points(
    camera: PinholeCamera,
    iters: u32,
    trig: TiltTrig,
    points: &[f64],
    to: &mut [f64],
) -> u8
    ensures number { result ≡ refusal_number (map_reply (tilt_projection_matrix trig) points.now to.old) }
    ensures destination { to.new ≡ map_destination camera.k (undistorted camera.dist iters) (tilt_projection_matrix trig) points.now to.old }
{
    refusal_number(maps::ideal_points(camera.k, camera.dist, iters, trig, points, to))
}

// Writes the normalised points to the front of `to`, and returns the transform.
#[unsafe(no_mangle)]
pub extern "C" fn jc_normalize_points_2d(points: &[f64], to: &mut [f64]) -> NormalizeReply
    ensures reply { result ≡ flat_normalized (normalize_reply points.now (length to.old)) }
    ensures written { to.new ≡ normalize_into points.now to.old }
{
    points::linalg::normalize_points_2d(points, to).into()
}

#[unsafe(no_mangle)]
pub extern "C" fn jc_points_are_collinear(points: &[f64]) -> LineReply
    ensures { result ≡ flat_line_test (line_reply points.now) }
{
    points::homography::points_are_collinear(points).into()
}

// Writes the design rows to the front of `to`, 18 numbers a point: 0, or 17, 18 or 20 to 25.
#[unsafe(no_mangle)]
pub extern "C" fn jc_design_rows(source: &[f64], destination: &[f64], to: &mut [f64]) -> u8
    ensures number { result ≡ refusal_number (rows_reply source.now destination.now (length to.old)) }
    ensures written { to.new ≡ rows_into source.now destination.now to.old }
{
    let pairs = Pairs {
        src: source,
        dst: destination,
    };
    refusal_number(points::homography::design_rows(pairs, to))
}

#[unsafe(no_mangle)]
pub extern "C" fn jc_observed_pixel_center(pixels: &[f64]) -> CenterReply
    ensures { result ≡ flat_centre (centre_reply pixels.now) }
{
    centre::observed_pixel_center(pixels).into()
}
