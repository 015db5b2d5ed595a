// The replies of a journal that is run again and of one that is gone on from.
// Each struct has the fields of the one in include/jinnychair.h, in its order.
ghost use Rattle.std.specs.Prelude.{◌≡◌};
ghost use Rattle.capi_records.specs.Replay.{flat_replayed, flat_resumed};

use crate::record::RunRecord;
use common::Refusal;
use replay::{ReplayRefusal, Resumed, Standing};
use seeds::CandidateSeed;

// 0 and, where the run is over, the winner's number and score, else the seed that comes next; or 11, or a refusal of
// Start's; or 29 or 30 and the line's number, counted from 1.
#[repr(C)]
#[derive(Clone, Copy, Default)]
pub struct ReplayFlat {
    pub number: u8,
    pub is_over: u8,
    pub line_number: usize,
    pub candidate: usize,
    pub score: f64,
    pub next: CandidateSeed,
}

// 0 and the run, how much is kept and dropped, and what ended the kept lines (0 nothing, 1 a missing newline, 29, 30);
// or a refusal of Start's.
#[repr(C)]
#[derive(Clone, Copy, Default)]
pub struct ResumeFlat {
    pub number: u8,
    pub ended_by: u8,
    pub lines: usize,
    pub kept: usize,
    pub dropped: usize,
    pub run: RunRecord,
}

impl From<Result<Standing, ReplayRefusal>> for ReplayFlat {
    ghost from_gives = { λ replayed flat. flat ≡ flat_replayed replayed };

    fn from(replayed: Result<Standing, ReplayRefusal>) -> ReplayFlat {
        let flat = ReplayFlat::default();
        match replayed {
            Ok(Standing::Winner { number, score }) => ReplayFlat {
                is_over: 1,
                candidate: number,
                score,
                ..flat
            },
            Ok(Standing::Unfinished(next)) => ReplayFlat { next, ..flat },
            Err(ReplayRefusal::Refused(refusal)) => ReplayFlat {
                number: refusal.into(),
                ..flat
            },
            Err(ReplayRefusal::At(refusal, line_number)) => ReplayFlat {
                number: refusal.into(),
                line_number,
                ..flat
            },
        }
    }
}

impl From<Result<Resumed, Refusal>> for ResumeFlat {
    ghost from_gives = { λ resumed flat. flat ≡ flat_resumed resumed };

    // A match, since `KeptLines` has no default whose fields could be taken.
    #[tactic(auto, unfolding(score::specs::Best::no_best))]
    fn from(resumed: Result<Resumed, Refusal>) -> ResumeFlat {
        match resumed {
            Ok(Resumed { run, kept_lines }) => ResumeFlat {
                number: 0,
                ended_by: kept_lines.ended_by.into(),
                lines: kept_lines.lines,
                kept: kept_lines.kept,
                dropped: kept_lines.dropped,
                run: run.into(),
            },
            Err(refusal) => ResumeFlat {
                number: refusal.into(),
                ..ResumeFlat::default()
            },
        }
    }
}
