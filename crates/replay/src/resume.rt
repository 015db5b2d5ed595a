// A run that goes on from the lines of a journal that stops anywhere.

ghost use Rattle.std.specs.Prelude.{◌≡◌, ◌≤◌, length};
ghost use Rattle.replay.specs.Resume.{is_cut_line, ended_by_of, resumed_by, resume_def};

use crate::walk::walk;
use crate::{EndedBy, KeptLines, Resumed, WalkEnd, Walked};
use common::Refusal;
use search::start::{Inputs, start};

// Something is left, and no newline in it.
fn is_cut_line(rest: &[u8]) -> bool
    ensures { result ≡ is_cut_line rest.now }
{
    !rest.is_empty() & !rest.contains(&b'\n')
}

// What ended the kept lines, where this is what stands behind them.
#[tactic(auto, unfolding(crate::specs::Resume::ended_by_of))]
fn ended_by(walk_end: WalkEnd, rest: &[u8]) -> EndedBy
    ensures { result ≡ ended_by_of walk_end rest.now }
{
    if is_cut_line(rest) {
        return EndedBy::MissingNewline;
    }
    EndedBy::WalkEnded(walk_end)
}

// The run that the walk left, and the report on the journal.
#[tactic(auto, unfolding(crate::specs::Resume::kept_lines_of))]
fn resumed(walked: Walked, bytes: &[u8]) -> Resumed
    requires { walked.bytes ≤ length bytes.now }
    ensures { result ≡ resumed_by walked bytes.now }
{
    let kept = walked.bytes;
    let rest = &bytes[kept..];
    Resumed {
        run: walked.run,
        kept_lines: KeptLines {
            lines: walked.lines,
            kept,
            dropped: rest.len(),
            ended_by: ended_by(walked.walk_end, rest),
        },
    }
}

pub fn resume(inputs: Inputs, bytes: &[u8], list: &mut [f64]) -> Result<Resumed, Refusal>
    ensures value { let i = inputs.entry in result ≡ (resume_def i.views i.options i.tilt_x_seeds.now i.tilt_y_seeds.now i.decomposition.now i.base i.center list.old bytes.now).reply }
    ensures list_after { let i = inputs.entry in list.new ≡ (resume_def i.views i.options i.tilt_x_seeds.now i.tilt_y_seeds.now i.decomposition.now i.base i.center list.old bytes.now).list }
{
    let run = start(inputs, list)?;
    Ok(resumed(walk(run, bytes, list), bytes))
}
