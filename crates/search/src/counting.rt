// How many candidates were scored and how many skipped for each reason, as the run's record keeps it.

ghost use Rattle.std.specs.Prelude.{◌≡◌, ◌≤◌};
ghost use Rattle.journal.specs.Counts.{with_count};
ghost use Rattle.journal.specs.Report.{total};
ghost use Rattle.search.specs.Record.{add_up};

use journal::total::total_if_small;
use journal::{Counts, Recorded};
use score::outcome::SkipReason;

// One more skip for this reason. The bound on the counts is asked for, here and below, and is no ghost field of theirs,
// since C hands in counts of any size.
#[tactic(auto, unfolding(journal::specs::Report::total))]
fn with_skip(counts: Counts, reason: SkipReason) -> Counts
    requires { total counts ≤ 656 }
    ensures { result ≡ with_count counts (Err reason) }
{
    match reason {
        SkipReason::HostFailed => Counts {
            host_failed: counts.host_failed + 1,
            ..counts
        },
        SkipReason::BadCamera => Counts {
            bad_camera: counts.bad_camera + 1,
            ..counts
        },
        SkipReason::NoMean => Counts {
            no_mean: counts.no_mean + 1,
            ..counts
        },
        SkipReason::NoNumber => Counts {
            no_number: counts.no_number + 1,
            ..counts
        },
    }
}

// One more of what is recorded.
#[tactic(auto, unfolding(journal::specs::Report::total))]
pub fn with_count(counts: Counts, recorded: Recorded) -> Counts
    requires { total counts ≤ 656 }
    ensures { result ≡ with_count counts recorded }
{
    match recorded {
        Ok(_) => Counts {
            scored: counts.scored + 1,
            ..counts
        },
        Err(reason) => with_skip(counts, reason),
    }
}

// Whether the counts add up to the number of answers, of which a run has at most 656.
pub fn add_up(counts: Counts, number: usize) -> bool
    ensures { result ≡ add_up counts number }
{
    total_if_small(counts) == Some(number)
}
