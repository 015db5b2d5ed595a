// The walk over a journal's lines, from a run and its lent list on.

ghost use Rattle.std.specs.Prelude.{◌≡◌, ◌*◌, ◌≤◌, length};
ghost use Rattle.replay.specs.Walk.{run_taken, list_taken, walk_of, walked_as};

use crate::stand::answers_waiting;
use crate::{WalkEnd, Walked};
use journal::outcome::outcome_in;
use journal::reading::read_line;
use journal::{Line, Read};
use search::answer::enter;
use search::next::{Handed, next};
use search::run::Run;

// Takes the line for the answer to the seed that Next hands out, if it can be, and returns the run after it.
#[tactic(auto, unfolding(crate::specs::Walk::take_line))]
fn take_line(run: Run, list: &mut [f64], line: Line) -> Option<Run>
    ensures value { result ≡ run_taken run list.old line }
    ensures list_after { list.new ≡ list_taken run list.old line }
{
    let next = next(run, list);
    let Ok(Handed::Candidate(_)) = next.reply else {
        return None;
    };
    if !answers_waiting(next.run, line) {
        return None;
    }
    Some(enter(next.run, list, outcome_in(line.outcome)))
}

// Takes line after line, as long as they can be taken. The loop ends in three ways, each with its own reason, and the
// place stays before a line that isn't taken.
pub fn walk(mut run: Run, bytes: &[u8], list: &mut [f64]) -> Walked
    ensures walked { result ≡ walked_as (walk_of run list.old bytes.now) }
    ensures written { list.new ≡ (walk_of run list.old bytes.now).list }
    ensures within { (2 * result.lines ≤ result.bytes) × (result.bytes ≤ length bytes.now) }
{
    let mut lines = 0;
    let mut at = 0;
    let walk_end = loop {
        match read_line(bytes, at) {
            Read::Got(line, behind) => {
                let Some(after) = take_line(run, list, line) else {
                    break WalkEnd::NotTheRun;
                };
                run = after;
                at = behind;
                lines += 1;
            }
            Read::NotALine(_) => break WalkEnd::NotALine,
            Read::End => break WalkEnd::AllTaken,
        }
    };
    Walked {
        run,
        lines,
        bytes: at,
        walk_end,
    }
}
