// The stop call: the best so far, and how much this round could still gain. Neither run nor list changes, and the run can go on.

ghost use Rattle.std.specs.Prelude.{◌≡◌, ◌*◌, ◌≤◌, ◌<◌, length};
ghost use Rattle.score.specs.Floor.{floor_of};
ghost use Rattle.search.specs.Stop.{left_seeds, best_so_far, nothing_left, with_floor, stop_def};

use crate::run::{Run, is_sound};
use common::Refusal;
use score::best::Candidate;
use score::floor::{counted_penalty, floor_between};

// The run's best, if found; the floor of the seeds left, where there are any; and whether this round can gain nothing.
#[derive(Clone, Copy)]
pub struct Outlook {
    pub best: Option<Candidate>,
    pub floor: Option<f64>,
    pub no_gain: bool,
}

// The run's best as Result gives it, if there is one.
#[tactic(auto, unfolding(crate::specs::Stop::best_so_far))]
fn best_so_far(run: Run) -> Option<Candidate>
    ensures { result ≡ best_so_far run }
{
    run.run_best.candidate()
}

// No seed of this round's list is left.
fn nothing_left(best: Option<Candidate>) -> Outlook
    ensures { result ≡ nothing_left best }
{
    Outlook {
        best,
        floor: None,
        no_gain: false,
    }
}

// Seeds are left, and this is their floor. With no best nothing is said of gain.
fn with_floor(best: Option<Candidate>, floor: f64) -> Outlook
    ensures { result ≡ with_floor best floor }
{
    let no_gain = best.is_some_and(|c| !(floor < c.score));
    Outlook {
        best,
        floor: Some(floor),
        no_gain,
    }
}

// The floor of the seeds left: the waiting one as the run keeps it, the others as they stand in the list. The record
// and its list are two parameters, here and below, since C keeps them apart.
fn floor_left(run: Run, list: &[f64]) -> f64
    requires { (run.place.at < run.place.len) × (6 * run.place.len ≤ length list.now) }
    ensures { result ≡ floor_of (left_seeds run list.now) }
{
    if !run.waiting.is_waiting {
        return floor_between(list, run.place.at, run.place.len);
    }
    let others = floor_between(list, run.place.at + 1, run.place.len);
    float::min(counted_penalty(run.waiting.seed.sensor), others)
}

pub fn stop(run: Run, list: &[f64]) -> Result<Outlook, Refusal>
    ensures { result ≡ stop_def run list.now }
{
    if !is_sound(run) {
        return Ok(nothing_left(None));
    }
    run.list_refusal(list.len())?;
    let best = best_so_far(run);
    if run.place.len <= run.place.at {
        return Ok(nothing_left(best));
    }
    Ok(with_floor(best, floor_left(run, list)))
}
