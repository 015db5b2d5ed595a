// The counts call says how many candidates were scored and how many skipped for each reason.

ghost use Rattle.std.specs.Prelude.{◌≡◌};
ghost use Rattle.search.specs.Counts.{counts_def};

use crate::run::{Run, is_sound};
use journal::Counts;

#[tactic(auto, unfolding(crate::specs::Counts::counts_def))]
pub fn counts(run: Run) -> Counts
    ensures { result ≡ counts_def run }
{
    if !is_sound(run) {
        return Counts::default();
    }
    run.counts
}
