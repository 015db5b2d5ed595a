// A journal is run again, or a run goes on from it. One walk over the lines serves both: Next hands out a seed, the
// line is compared with it, and what it records is entered as an answer's outcome would be. A run's record, its list
// and the journal's bytes are three parameters in each module below, since C keeps them apart.

#![tactic(auto)]

ghost use Rattle.std.specs.Prelude.{◌≡◌};
ghost use Rattle.replay.specs.declared.ReplayRefusal.TheVariants.{Refused};
ghost use Rattle.replay.specs.Resume.{ended_number};

pub mod replay;
pub mod resume;
pub mod stand;
pub mod walk;

use common::Refusal;
use search::run::Run;
use seeds::CandidateSeed;

// What stopped a walk: the end of the journal; a line that isn't of the form, 29; or one that can't be the run's next
// answer, 30. A Result of Refusal would admit refusals that no walk gives.
#[derive(Clone, Copy)]
pub enum WalkEnd {
    AllTaken,
    NotALine,
    NotTheRun,
}

// The run as the taken lines left it, how many they are and how many bytes they have, and what stopped the walk there.
#[derive(Clone, Copy)]
pub struct Walked {
    pub run: Run,
    pub lines: usize,
    pub bytes: usize,
    pub walk_end: WalkEnd,
}

// Where a run stands: the winner's number and score, or the seed that comes next in a run that isn't over. It is no
// Result, since neither is a failure.
#[derive(Clone, Copy)]
pub enum Standing {
    Winner { number: usize, score: f64 },
    Unfinished(CandidateSeed),
}

// Why a journal isn't run to its end: 11 or a refusal of Start's; or 29 or 30 at a line, with its number, from 1.
#[derive(Clone, Copy)]
pub enum ReplayRefusal {
    Refused(Refusal),
    At(Refusal, usize),
}

impl From<Refusal> for ReplayRefusal {
    ghost from_gives = { λ refusal made. made ≡ Refused refusal };

    fn from(refusal: Refusal) -> ReplayRefusal {
        ReplayRefusal::Refused(refusal)
    }
}

// What ended the kept lines: a line without its newline, or what stopped the walk. It is no Option of Stop, since a
// missing newline is a reason of its own.
#[derive(Clone, Copy)]
pub enum EndedBy {
    MissingNewline,
    WalkEnded(WalkEnd),
}

// The numbers that other languages are told.
impl From<EndedBy> for u8 {
    ghost from_gives = { λ ended number. number ≡ ended_number ended };

    fn from(ended: EndedBy) -> u8 {
        match ended {
            EndedBy::MissingNewline => 1,
            EndedBy::WalkEnded(WalkEnd::AllTaken) => 0,
            EndedBy::WalkEnded(WalkEnd::NotALine) => Refusal::NotALine.into(),
            EndedBy::WalkEnded(WalkEnd::NotTheRun) => Refusal::NotTheRun.into(),
        }
    }
}

// How many lines are kept, how many bytes they have, how many bytes follow them, and why those aren't kept.
#[derive(Clone, Copy)]
pub struct KeptLines {
    pub lines: usize,
    pub kept: usize,
    pub dropped: usize,
    pub ended_by: EndedBy,
}

// The run as the kept lines leave it, with the report.
#[derive(Clone, Copy)]
pub struct Resumed {
    pub run: Run,
    pub kept_lines: KeptLines,
}
