// When two seeds are near each other, and the bound of a seed's tilts.
// Each function equals its rule for every input.

ghost use Rattle.std.specs.Prelude.{◌≡◌};
ghost use Rattle.seeds.specs.Rules as rules;
ghost use Rattle.seeds.specs.Rules.{tilt_limit, tilt_near, camera_near, in_bound};

use crate::CandidateSeed;
use camera::intrinsics::FxFyCxCy;
use camera::sensor::ScheimpflugParams;

// `float::abs` isn't used: for -0 it compares once more, which isn't needed here, in the inner loop over a list.
fn closer(limit: f64, x: f64, y: f64) -> bool
    ensures { result ≡ rules.closer limit x y }
{
    let d = x - y;
    let size = if d < 0.0 { -d } else { d };
    size < limit
}

// Whether two tilts about one axis are nearer than 1e-12. Most are far apart, and then one comparison of squares
// decides, without a test of the sign: a rounded square keeps the order of sizes.
#[tactic(auto, using(crate::proofs::Far::not_near_by_squares), unfolding(crate::specs::Rules::closer))]
fn tilt_closer(x: f64, y: f64) -> bool
    ensures { result ≡ rules.closer tilt_limit x y }
{
    let d = x - y;
    if 1e-12 * 1e-12 < d * d {
        return false;
    }
    closer(1e-12, x, y)
}

#[tactic(auto, unfolding(crate::specs::Rules::tilt_near))]
pub fn tilt_near(s: ScheimpflugParams, t: ScheimpflugParams) -> bool
    ensures { result ≡ tilt_near s t }
{
    tilt_closer(s.tilt_x, t.tilt_x) && closer(1e-12, s.tilt_y, t.tilt_y)
}

#[tactic(auto, unfolding(crate::specs::Rules::camera_near))]
fn camera_near(k: FxFyCxCy, l: FxFyCxCy) -> bool
    ensures { result ≡ camera_near k l }
{
    closer(1e-9, k.fx, l.fx)
        & closer(1e-9, k.fy, l.fy)
        & closer(1e-9, k.cx, l.cx)
        & closer(1e-9, k.cy, l.cy)
}

// Compares the tilts first, since seeds of one list mostly differ there.
#[tactic(auto, unfolding(crate::specs::Rules::near))]
pub fn near(s: CandidateSeed, t: CandidateSeed) -> bool
    ensures { result ≡ rules.near s t }
{
    tilt_near(s.sensor, t.sensor) && camera_near(s.reference_k, t.reference_k)
}

#[tactic(auto, unfolding(crate::specs::Rules::in_bound))]
pub fn in_bound(max_abs_tilt: f64, t: ScheimpflugParams) -> bool
    ensures { result ≡ in_bound max_abs_tilt t }
{
    float::within(max_abs_tilt, t.tilt_x) & float::within(max_abs_tilt, t.tilt_y)
}
