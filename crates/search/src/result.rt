// Result gives the run's best candidate once the run is over.

ghost use Rattle.std.specs.Prelude.{◌≡◌};
ghost use Rattle.search.specs.Result.{result_def};

use crate::run::{Run, is_sound};
use common::Refusal;
use score::best::Candidate;

#[tactic(auto, unfolding(crate::specs::Result::result_def))]
pub fn result(run: Run) -> Result<Candidate, Refusal>
    ensures { result ≡ result_def run }
{
    if !is_sound(run) {
        return Err(Refusal::NothingScored);
    }
    if !run.place.over {
        return Err(Refusal::NotOver);
    }
    run.run_best.candidate().ok_or(Refusal::NothingScored)
}
