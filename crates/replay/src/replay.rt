// A journal that is run again from Start's inputs, without a host.

ghost use Rattle.std.specs.Prelude.{◌≡◌, ◌<◌};
ghost use Rattle.replay.specs.Replay.{standing_of, reply_by, replay_def};

use crate::walk::walk;
use crate::{ReplayRefusal, Standing, WalkEnd, Walked};
use common::Refusal;
use search::next::{Handed, next};
use search::run::Run;
use search::start::{Inputs, start};

// Where a run stands: who won, the seed that Next would hand out, or that nobody won.
#[tactic(auto, unfolding(crate::specs::Replay::standing_of))]
fn standing(run: Run, list: &[f64]) -> Result<Standing, Refusal>
    ensures { result ≡ standing_of run list.now }
{
    let next = next(run, list);
    match next.reply? {
        Handed::Candidate(_) => Ok(Standing::Unfinished(next.run.waiting.seed)),
        Handed::Over => Ok(Standing::Winner {
            number: run.run_best.candidate.number,
            score: run.run_best.candidate.score,
        }),
    }
}

// The reply to a walk that stopped here.
fn reply_to(walked: Walked, list: &[f64]) -> Result<Standing, ReplayRefusal>
    requires { walked.lines < 0x8000000000000000 }
    ensures { result ≡ reply_by walked.walk_end walked.lines (standing_of walked.run list.now) }
{
    match walked.walk_end {
        WalkEnd::AllTaken => Ok(standing(walked.run, list)?),
        WalkEnd::NotALine => Err(ReplayRefusal::At(Refusal::NotALine, walked.lines + 1)),
        WalkEnd::NotTheRun => Err(ReplayRefusal::At(Refusal::NotTheRun, walked.lines + 1)),
    }
}

#[tactic(auto, unfolding(crate::specs::Replay::reply_to))]
pub fn replay(inputs: Inputs, bytes: &[u8], list: &mut [f64]) -> Result<Standing, ReplayRefusal>
    ensures value { let i = inputs.entry in result ≡ (replay_def i.views i.options i.tilt_x_seeds.now i.tilt_y_seeds.now i.decomposition.now i.base i.center list.old bytes.now).reply }
    ensures list_after { let i = inputs.entry in list.new ≡ (replay_def i.views i.options i.tilt_x_seeds.now i.tilt_y_seeds.now i.decomposition.now i.base i.center list.old bytes.now).list }
{
    let run = start(inputs, list)?;
    reply_to(walk(run, bytes, list), list)
}
