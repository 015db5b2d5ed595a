// The last answered candidate as a line of the journal. The host writes it before its next answer: the run keeps one.

ghost use Rattle.std.specs.Prelude.{◌≡◌};
ghost use Rattle.search.specs.Last.{recorded_in, last_def};

use crate::run::{LastAnswer, Run, is_sound};
use journal::outcome::recorded_with;
use journal::{Line, Recorded};

// What the kept answer's numbers record: scored, or skipped for reason 1 to 4.
#[tactic(auto, unfolding(crate::specs::Last::recorded_in))]
fn recorded_in(last: LastAnswer) -> Option<Recorded>
    ensures { result ≡ recorded_in last }
{
    recorded_with(last.skipped, last.scored).ok()
}

// The run keeps a line where a candidate was answered, and scored or skipped for reason 1 to 4. The line is made field
// by field, since a TryFrom of the answer would name a refusal that None drops.
#[tactic(auto, using(crate::proofs::LastLaws::last_def_by_recorded))]
pub fn last_line(run: Run) -> Option<Line>
    ensures { result ≡ last_def run }
{
    if !(is_sound(run) & run.last.found) {
        return None;
    }
    let outcome = recorded_in(run.last)?;
    Some(Line {
        number: run.last.number,
        round: run.last.round,
        seed: run.last.seed,
        outcome,
    })
}
