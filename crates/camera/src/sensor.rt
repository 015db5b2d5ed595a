// The tilted (Scheimpflug) sensor: its homography, whether that has an inverse, and a point under each of the two.
// Each function equals its formula, rounded operation by operation, for every input.

ghost use Rattle.std.specs.Prelude.{◌≡◌, Float};
ghost use Rattle.camera.specs.Matrix.{product_of};
ghost use Rattle.camera.specs.Sensor.{rot_x, rot_y, proj_z, tilt_projection_matrix, is_singular, tilt_verdict, checked_inverse, row_at, homogeneous, forward_depth, inverse_depth, divided_by, apply_homography, apply_homography_inverse};

use crate::math::Pt2;
use crate::matrix::{determinant, inverse, product};
use common::Refusal;

// Tilt about each axis of the sensor, in radians.
#[repr(C)]
#[derive(Clone, Copy, Default)]
pub struct ScheimpflugParams {
    pub tilt_x: f64,
    pub tilt_y: f64,
}

// Sine and cosine of the tilt about each axis.
#[repr(C)]
#[derive(Clone, Copy)]
pub struct TiltTrig {
    pub sin_x: f64,
    pub cos_x: f64,
    pub sin_y: f64,
    pub cos_y: f64,
}

// The rotation by both tilts.
fn rotation(trig: TiltTrig) -> [[f64; 3]; 3]
    ensures { result ≡ product_of (rot_y trig.sin_y trig.cos_y) (rot_x trig.sin_x trig.cos_x) }
{
    let TiltTrig {
        sin_x,
        cos_x,
        sin_y,
        cos_y,
    } = trig;
    let rot_x = [[1.0, 0.0, 0.0], [0.0, cos_x, sin_x], [0.0, -sin_x, cos_x]];
    let rot_y = [[cos_y, 0.0, -sin_y], [0.0, 1.0, 0.0], [sin_y, 0.0, cos_y]];
    product(rot_y, rot_x)
}

// The projection onto the tilted plane, by the rotation's last column.
fn plane_projection(r: [[f64; 3]; 3]) -> [[f64; 3]; 3]
    ensures { result ≡ proj_z r }
{
    let [[_, _, x], [_, _, y], [_, _, z]] = r;
    [[z, 0.0, -x], [0.0, z, -y], [0.0, 0.0, 1.0]]
}

// OpenCV's homography of a tilted sensor.
#[tactic(auto, unfolding(crate::specs::Sensor::tilt_projection_matrix))]
pub fn tilt_projection_matrix(trig: TiltTrig) -> [[f64; 3]; 3]
    ensures { result ≡ tilt_projection_matrix trig }
{
    let r = rotation(trig);
    product(plane_projection(r), r)
}

fn is_singular(h: [[f64; 3]; 3]) -> bool
    ensures { result ≡ is_singular h }
{
    determinant(h) == 0.0
}

// A determinant of either zero is refused; a NaN or an infinity is not zero, and passes.
pub fn tilt_verdict(h: [[f64; 3]; 3]) -> Result<(), Refusal>
    ensures { result ≡ tilt_verdict h }
{
    if is_singular(h) {
        return Err(Refusal::SingularTilt);
    }
    Ok(())
}

// The inverse of a matrix that has one.
pub fn checked_inverse(h: [[f64; 3]; 3]) -> Result<[[f64; 3]; 3], Refusal>
    ensures { result ≡ checked_inverse h }
{
    tilt_verdict(h)?;
    Ok(inverse(h))
}

// A row times (x, y, 1).
pub fn row_at(row: [f64; 3], p: Pt2) -> f64
    ensures { result ≡ row_at row p }
{
    row[0] * p.x + row[1] * p.y + row[2] * 1.0
}

// What divides a point's first two coordinates on its way forward.
pub fn forward_depth(z: f64) -> f64
    ensures { result ≡ forward_depth z }
{
    float::max(1e-12, z)
}

#[tactic(auto, unfolding(crate::specs::Sensor::inverse_depth))]
fn inverse_depth(z: f64) -> f64
    ensures { result ≡ inverse_depth z }
{
    if float::abs(z) > 1e-12 { z } else { 1e-12 }
}

// A point under a matrix: the first two coordinates, divided by what `depth` makes of the third.
fn divided<F: Fn(f64) -> f64>(h: [[f64; 3]; 3], p: Pt2, depth: F) -> Pt2
    requires { F.IsAlwaysCallable depth }
    ensures { (d : Float) × F.post depth (homogeneous h p 2) d × (result ≡ divided_by d h p) }
{
    let [top, middle, bottom] = h;
    let d = depth(row_at(bottom, p));
    Pt2 {
        x: row_at(top, p) / d,
        y: row_at(middle, p) / d,
    }
}

#[tactic(auto, unfolding(crate::specs::Sensor::apply_homography))]
pub fn apply_homography(h: [[f64; 3]; 3], p: Pt2) -> Pt2
    ensures { result ≡ apply_homography h p }
{
    divided(h, p, forward_depth)
}

#[tactic(auto, unfolding(crate::specs::Sensor::apply_homography_inverse))]
pub fn apply_homography_inverse(h_inv: [[f64; 3]; 3], p: Pt2) -> Pt2
    ensures { result ≡ apply_homography_inverse h_inv p }
{
    divided(h_inv, p, inverse_depth)
}
