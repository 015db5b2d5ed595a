// The progress call says how far the run has come, as a progress bar shows it.

ghost use Rattle.std.specs.Prelude.{◌≡◌};
ghost use Rattle.search.specs.Progress.{progress_def};

use crate::run::{Run, is_sound};

// The round, and how many later rounds are asked for; how many seeds of this round's list are answered, and how many it
// has; and how many are answered over the run.
#[repr(C)]
#[derive(Clone, Copy, Default)]
pub struct ProgressReply {
    pub round: usize,
    pub rounds: usize,
    pub answered: usize,
    pub total: usize,
    pub answered_in_run: usize,
}

#[tactic(auto, unfolding(crate::specs::Progress::progress_def))]
pub fn progress(run: Run) -> ProgressReply
    ensures { result ≡ progress_def run }
{
    if !is_sound(run) {
        return ProgressReply::default();
    }
    ProgressReply {
        round: run.place.round,
        rounds: run.options.refine_rounds,
        answered: run.place.at,
        total: run.place.len,
        answered_in_run: run.place.number,
    }
}
