// Undistortion: Newton's method on the Brown-Conrady model, with halved steps.
// Each function equals its rule, rounded operation by operation, for every input.

ghost use Rattle.std.specs.Prelude.{◌≡◌};
ghost use Rattle.camera.specs.Undistortion.{halved, estimate_at, jacobian_determinant, singular, newton_step, improves, trials, small_step, after_trials, newton_turn, last_step, newton_undistorted, undistorted};

use crate::distortion::{BrownConrady5, Jacobian, distort_with_jacobian};
use crate::math::Pt2;

// A point, how far its distortion is from the target, and the derivatives there.
#[derive(Clone, Copy)]
pub struct Estimate {
    pub point: Pt2,
    pub error: Pt2,
    pub jacobian: Jacobian,
}

impl Estimate {
    #[tactic(auto, unfolding(crate::specs::Undistortion::step_by))]
    fn newton_step(self) -> Pt2
        ensures { result ≡ newton_step self }
    {
        let j = self.jacobian;
        let det = jacobian_determinant(j);
        Pt2 {
            x: (j.yy * self.error.x - j.xy * self.error.y) / det,
            y: (j.xx * self.error.y - j.yx * self.error.x) / det,
        }
    }

    #[tactic(auto, unfolding(crate::specs::Undistortion::improves))]
    fn is_better_than(self, e: Estimate) -> bool
        ensures { result ≡ improves self e }
    {
        let lower = self.error.squared_norm();
        float::is_finite(lower) && lower < e.error.squared_norm()
    }

    // One Newton step more, which no trial checks.
    #[tactic(auto, unfolding(crate::specs::Undistortion::last_step))]
    fn last_step(self) -> Pt2
        ensures { result ≡ last_step self }
    {
        if is_singular(self.jacobian) {
            return self.point;
        }
        self.point - self.newton_step()
    }
}

// An estimate that the trials accept, and the step that led to it.
#[derive(Clone, Copy)]
pub struct Trial {
    pub estimate: Estimate,
    pub step: Pt2,
}

// What a turn of Newton's method accepts: nothing, the last estimate, or one that another turn follows. It is no
// `ControlFlow`, since after a turn that accepts nothing there is no new estimate for its `Break` to hold.
#[derive(Clone, Copy)]
pub enum Turn {
    Ended,
    Last(Estimate),
    Further(Estimate),
}

// The search for the point whose distortion by the lens is the target.
#[derive(Clone, Copy)]
pub struct Inversion {
    pub lens: BrownConrady5,
    pub target: Pt2,
}

impl Inversion {
    #[tactic(auto, unfolding(crate::specs::Undistortion::estimate_at))]
    fn estimate_at(self, p: Pt2) -> Estimate
        ensures { result ≡ estimate_at self.lens self.target p }
    {
        let at = distort_with_jacobian(self.lens, p);
        Estimate {
            point: p,
            error: at.point - self.target,
            jacobian: at.jacobian,
        }
    }

    // The first of 30 steps, each half of the one before, after which the estimate is better.
    #[tactic(auto, using(crate::proofs::Turns::trials_end, crate::proofs::Turns::trials_halves))]
    fn line_search(self, e: Estimate, first: Pt2) -> Option<Trial>
        ensures { result ≡ trials 30 self.lens self.target e first }
    {
        let mut step = first;
        for _ in 0..30u32 {
            let estimate = self.estimate_at(e.point - step);
            if estimate.is_better_than(e) {
                return Some(Trial { estimate, step });
            }
            step = half_of(step);
        }
        None
    }

    #[tactic(auto, unfolding(crate::specs::Undistortion::newton_turn))]
    fn newton_turn(self, e: Estimate) -> Turn
        ensures { result ≡ newton_turn self.lens self.target e }
    {
        if e.error.squared_norm() == 0.0 {
            return Turn::Ended;
        }
        if is_singular(e.jacobian) {
            return Turn::Ended;
        }
        after_trials(self.line_search(e, e.newton_step()))
    }

    #[tactic(auto, using(crate::proofs::Turns::newton_none, crate::proofs::Turns::newton_ends, crate::proofs::Turns::newton_next))]
    fn newton_undistort(self, max_iters: u32) -> Pt2
        ensures { result ≡ newton_undistorted self.lens self.target max_iters }
    {
        let mut e = self.estimate_at(self.target);
        for _ in 0..max_iters {
            match self.newton_turn(e) {
                Turn::Ended => {
                    return e.last_step();
                }
                Turn::Last(next) => {
                    return next.last_step();
                }
                Turn::Further(next) => {
                    e = next;
                }
            }
        }
        e.last_step()
    }
}

fn jacobian_determinant(j: Jacobian) -> f64
    ensures { result ≡ jacobian_determinant j }
{
    j.xx * j.yy - j.xy * j.yx
}

#[tactic(auto, unfolding(crate::specs::Undistortion::singular))]
fn is_singular(j: Jacobian) -> bool
    ensures { result ≡ singular j }
{
    let det = jacobian_determinant(j);
    det == 0.0 || !float::is_finite(det)
}

fn half_of(p: Pt2) -> Pt2
    ensures { result ≡ halved p }
{
    Pt2 {
        x: p.x * 0.5,
        y: p.y * 0.5,
    }
}

// Whether the step is below a few units in the last place of the point that it led to.
#[tactic(auto, unfolding(crate::specs::Undistortion::small_step))]
fn is_small(step: Pt2, p: Pt2) -> bool
    ensures { result ≡ small_step step p }
{
    // 2 ^ -100
    let tolerance = 7.888609052210118e-31;
    step.squared_norm() <= tolerance * (1.0 + p.x * p.x + p.y * p.y)
}

#[tactic(auto, unfolding(crate::specs::Undistortion::after_trials))]
fn after_trials(found: Option<Trial>) -> Turn
    ensures { result ≡ after_trials found }
{
    match found {
        None => Turn::Ended,
        Some(trial) => {
            if is_small(trial.step, trial.estimate.point) {
                Turn::Last(trial.estimate)
            } else {
                Turn::Further(trial.estimate)
            }
        }
    }
}

// `undistort` with each number as an argument of its own. Such arguments are passed in registers; structs would be
// stored by the caller and read at once in other pieces, for which the processor waits (docs/SPEED.md).
fn undistort_numbers(
    k1: f64,
    k2: f64,
    k3: f64,
    p1: f64,
    p2: f64,
    x: f64,
    y: f64,
    max_iters: u32,
) -> Pt2
    ensures { result ≡ newton_undistorted (record { k1 = k1; k2 = k2; k3 = k3; p1 = p1; p2 = p2 }) (record { x = x; y = y }) max_iters }
{
    let sought = Inversion {
        lens: BrownConrady5 { k1, k2, k3, p1, p2 },
        target: Pt2 { x, y },
    };
    sought.newton_undistort(max_iters)
}

// The point whose distortion is `n_dist`, as far as `iters` turns of Newton's method find it; 0 stands for 20.
#[tactic(auto, unfolding(crate::specs::Undistortion::undistorted))]
pub fn undistort(b: BrownConrady5, iters: u32, n_dist: Pt2) -> Pt2
    ensures { result ≡ undistorted b iters n_dist }
{
    let Pt2 { x, y } = n_dist;
    // Two calls, since the compiler would inline a single one, and callers would pass structs after all.
    if iters == 0 {
        return undistort_numbers(b.k1, b.k2, b.k3, b.p1, b.p2, x, y, 20);
    }
    undistort_numbers(b.k1, b.k2, b.k3, b.p1, b.p2, x, y, iters)
}
