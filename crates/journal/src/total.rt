// The five counts as a list, and their sum, where a run can have it.
ghost use Rattle.std.specs.Prelude.{◌≡◌};
ghost use Rattle.journal.specs.Report.{five, small_total};

use crate::Counts;

// The five counts, in the order that a report has them.
impl From<Counts> for [usize; 5] {
    ghost from_gives = { λ counts numbers. numbers ≡ five counts };

    fn from(c: Counts) -> [usize; 5] {
        [
            c.scored,
            c.host_failed,
            c.bad_camera,
            c.no_mean,
            c.no_number,
        ]
    }
}

// The total up to 656, or None where it is above. No count above 656 is added, so that the sum can't wrap round.
#[tactic(auto, unfolding(crate::specs::Report::total))]
pub fn total_if_small(c: Counts) -> Option<usize>
    ensures { result ≡ small_total c }
{
    let five: [usize; 5] = c.into();
    if five.iter().any(|n| 656 < *n) {
        return None;
    }
    let sum: usize = five.iter().sum();
    if 656 < sum {
        return None;
    }
    Some(sum)
}
