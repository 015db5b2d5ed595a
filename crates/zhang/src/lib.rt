// Zhang's closed form: a camera from the conic that a plate's homographies determine; `plate` has the conic that
// gives a chosen camera back. The reply equals a definition that reads like the appendix of Zhang's paper, for every
// six numbers.

#![tactic(auto)]

pub mod laws;
pub mod plate;

ghost use Rattle.std.specs.Prelude.{◌≡◌};
ghost use Rattle.zhang.specs.Zhang as zhang;
ghost use Rattle.zhang.specs.Zhang.{camera_of, from_homographies};

use camera::intrinsics::FxFyCxCy;
use common::Refusal;

// The conic B = μ K⁻ᵀ K⁻¹, a symmetric matrix known up to its scale μ, in the order in which the linear solve gives its
// numbers.
#[repr(C)]
#[derive(Clone, Copy, Default)]
pub struct Conic {
    pub b11: f64,
    pub b12: f64,
    pub b22: f64,
    pub b13: f64,
    pub b23: f64,
    pub b33: f64,
}

// The camera of a definite conic. The skew gamma is used for the principal point, and isn't part of the reply.
fn camera_of(b: Conic, denom: f64, v0: f64, lambda: f64) -> FxFyCxCy
    requires { (denom ≡ zhang.denom b) × (v0 ≡ zhang.v0 b) × (lambda ≡ zhang.lambda b) }
    ensures { result ≡ camera_of b }
{
    let Conic { b11, b12, b13, .. } = b;
    let alpha = root::sqrt(lambda / b11);
    let beta = root::sqrt(lambda * b11 / denom);
    let gamma = -b12 * alpha * alpha * beta / lambda;
    let u0 = gamma * v0 / beta - b13 * alpha * alpha / lambda;
    FxFyCxCy {
        fx: alpha,
        fy: beta,
        cx: u0,
        cy: v0,
    }
}

// The camera whose conic is b, where there is one.
#[tactic(auto, unfolding(float::specs::Float::within, crate::specs::Zhang::definite, crate::specs::Zhang::from_homographies))]
pub fn from_homographies(b: Conic) -> Result<FxFyCxCy, Refusal>
    ensures { result ≡ from_homographies b }
{
    let Conic {
        b11,
        b12,
        b22,
        b13,
        b23,
        b33,
    } = b;
    let denom = b11 * b22 - b12 * b12;
    let denom_norm = b11 * b11 + b22 * b22;
    if !(denom_norm > 0.0) {
        return Err(Refusal::DegenerateViews);
    }
    if !(denom / denom_norm > 1e-6) {
        return Err(Refusal::DegenerateViews);
    }
    if float::within(1e-12, b11) {
        return Err(Refusal::DegenerateViews);
    }
    let v0 = (b12 * b13 - b11 * b23) / denom;
    let lambda = b33 - (b13 * b13 + v0 * (b12 * b13 - b11 * b23)) / b11;
    if !(lambda / b11 > 0.0) {
        return Err(Refusal::DegenerateViews);
    }
    Ok(camera_of(b, denom, v0, lambda))
}
