// The Brown-Conrady lens distortion and its derivatives.
// Each function equals its formula, rounded operation by operation, for every input.

ghost use Rattle.std.specs.Prelude.{◌≡◌};
ghost use Rattle.camera.specs.Distortion.{terms, distorted, derivatives, jacobian_at, distorted_with_jacobian};

use crate::math::Pt2;

// Radial coefficients k1, k2, k3 and tangential p1, p2.
#[repr(C)]
#[derive(Clone, Copy, Default)]
pub struct BrownConrady5 {
    pub k1: f64,
    pub k2: f64,
    pub k3: f64,
    pub p1: f64,
    pub p2: f64,
}

// The derivatives of the distorted x and y by x and by y.
#[repr(C)]
#[derive(Clone, Copy)]
pub struct Jacobian {
    pub xx: f64,
    pub xy: f64,
    pub yx: f64,
    pub yy: f64,
}

#[repr(C)]
#[derive(Clone, Copy)]
pub struct DistortedPoint {
    pub point: Pt2,
    pub jacobian: Jacobian,
}

// The radial factor, and what is added to each coordinate.
#[derive(Clone, Copy)]
struct Terms {
    radial: f64,
    x_tan: f64,
    y_tan: f64,
}

// A function and no method, here and below, since the published Rust has functions of these names.
#[tactic(auto, unfolding(crate::specs::Distortion::radial_factor, crate::specs::Distortion::tangential_x, crate::specs::Distortion::tangential_y))]
fn brown_conrady_terms(b: BrownConrady5, p: Pt2) -> Terms
    ensures { result ≡ terms b p }
{
    let r2 = p.squared_norm();
    let r4 = r2 * r2;
    let r6 = r4 * r2;
    Terms {
        radial: 1.0 + b.k1 * r2 + b.k2 * r4 + b.k3 * r6,
        x_tan: 2.0 * b.p1 * p.x * p.y + b.p2 * (r2 + 2.0 * p.x * p.x),
        y_tan: b.p1 * (r2 + 2.0 * p.y * p.y) + 2.0 * b.p2 * p.x * p.y,
    }
}

#[tactic(auto, unfolding(crate::specs::Distortion::distorted))]
pub fn distort(b: BrownConrady5, n_undist: Pt2) -> Pt2
    ensures { result ≡ distorted b n_undist }
{
    let t = brown_conrady_terms(b, n_undist);
    Pt2 {
        x: n_undist.x * t.radial + t.x_tan,
        y: n_undist.y * t.radial + t.y_tan,
    }
}

fn radial_tangential_jacobian(b: BrownConrady5, p: Pt2, radial: f64, d_radial: f64) -> Jacobian
    ensures { result ≡ derivatives b p radial d_radial }
{
    let cross = 2.0 * p.x * p.y * d_radial + 2.0 * b.p1 * p.x + 2.0 * b.p2 * p.y;
    Jacobian {
        xx: radial + 2.0 * p.x * p.x * d_radial + 2.0 * b.p1 * p.y + 6.0 * b.p2 * p.x,
        xy: cross,
        yx: cross,
        yy: radial + 2.0 * p.y * p.y * d_radial + 6.0 * b.p1 * p.y + 2.0 * b.p2 * p.x,
    }
}

#[tactic(auto, unfolding(crate::specs::Distortion::jacobian_radial, crate::specs::Distortion::radial_derivative, crate::specs::Distortion::jacobian_at))]
fn jacobian_at(b: BrownConrady5, p: Pt2) -> Jacobian
    ensures { result ≡ jacobian_at b p }
{
    let r2 = p.squared_norm();
    let r4 = r2 * r2;
    let radial = 1.0 + b.k1 * r2 + b.k2 * r4 + b.k3 * r4 * r2;
    let d_radial = b.k1 + 2.0 * b.k2 * r2 + 3.0 * b.k3 * r4;
    radial_tangential_jacobian(b, p, radial, d_radial)
}

pub fn distort_with_jacobian(b: BrownConrady5, p: Pt2) -> DistortedPoint
    ensures { result ≡ distorted_with_jacobian b p }
{
    let point = distort(b, p);
    let jacobian = jacobian_at(b, p);
    DistortedPoint { point, jacobian }
}
