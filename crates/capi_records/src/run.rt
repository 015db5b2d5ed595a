// The replies of the search, the host's finding, and a seed's copy.
// Each struct has the fields of the one in include/jinnychair.h, in its order.
ghost use Rattle.std.specs.Prelude.{◌≡◌};
ghost use Rattle.capi_records.specs.Run.{flat_started, flat_next, flat_answer, flat_result, flat_outlook, flat_stopped, flat_last_line, finding_of, copied, copy_count};

use crate::lists::refusal_number;
use crate::record::{LastRecord, RunRecord};
use common::Refusal;
use journal::Line;
use score::best::Candidate;
use score::outcome::Finding;
use score::pinhole::PinholeCamera;
use search::answer::{AnswerReply, Answered};
use search::next::{Handed, NextReply};
use search::run::Run;
use search::stop::Outlook;

// 0 and the run, or 1 to 8, 27, 31, 32, 33.
#[repr(C)]
#[derive(Clone, Copy, Default)]
pub struct StartFlat {
    pub number: u8,
    pub run: RunRecord,
}

// 0 and the candidate's number; or 0 and over; or 9, 10 or 11.
#[repr(C)]
#[derive(Clone, Copy, Default)]
pub struct NextFlat {
    pub number: u8,
    pub over: u8,
    pub candidate: usize,
    pub run: RunRecord,
}

// 0 and the score; or 0 and the reason of a skip, 1 to 4; or 12, 10, 13 or 27.
#[repr(C)]
#[derive(Clone, Copy, Default)]
pub struct AnswerFlat {
    pub number: u8,
    pub skipped: u8,
    pub score: f64,
    pub run: RunRecord,
}

// 0 and the winner, or 14 or 11.
#[repr(C)]
#[derive(Clone, Copy, Default)]
pub struct ResultFlat {
    pub number: u8,
    pub candidate: Candidate,
}

// 0, the run's best where has_best is 1, and the floor where has_floor is 1; or 10.
#[repr(C)]
#[derive(Clone, Copy, Default)]
pub struct StopFlat {
    pub number: u8,
    pub has_best: u8,
    pub has_floor: u8,
    pub no_gain: u8,
    pub best: Candidate,
    pub floor: f64,
}

impl From<Result<Run, Refusal>> for StartFlat {
    ghost from_gives = { λ started flat. flat ≡ flat_started started };

    #[tactic(auto, unfolding(score::specs::Best::no_best))]
    fn from(started: Result<Run, Refusal>) -> StartFlat {
        StartFlat {
            number: refusal_number(started),
            run: started.unwrap_or_default().into(),
        }
    }
}

impl From<NextReply> for NextFlat {
    ghost from_gives = { λ next flat. flat ≡ flat_next next };

    fn from(next: NextReply) -> NextFlat {
        let flat = NextFlat {
            run: next.run.into(),
            ..NextFlat::default()
        };
        match next.reply {
            Ok(Handed::Candidate(candidate)) => NextFlat { candidate, ..flat },
            Ok(Handed::Over) => NextFlat { over: 1, ..flat },
            Err(refusal) => NextFlat {
                number: refusal.into(),
                ..flat
            },
        }
    }
}

impl From<AnswerReply> for AnswerFlat {
    ghost from_gives = { λ answer flat. flat ≡ flat_answer answer };

    fn from(answer: AnswerReply) -> AnswerFlat {
        let flat = AnswerFlat {
            run: answer.run.into(),
            ..AnswerFlat::default()
        };
        match answer.reply {
            Ok(Answered::Scored(score)) => AnswerFlat { score, ..flat },
            Ok(Answered::Skipped(reason)) => AnswerFlat {
                skipped: reason.into(),
                ..flat
            },
            Err(refusal) => AnswerFlat {
                number: refusal.into(),
                ..flat
            },
        }
    }
}

impl From<Result<Candidate, Refusal>> for ResultFlat {
    ghost from_gives = { λ best flat. flat ≡ flat_result best };

    #[tactic(auto, unfolding(score::specs::Best::no_best))]
    fn from(best: Result<Candidate, Refusal>) -> ResultFlat {
        ResultFlat {
            number: refusal_number(best),
            candidate: best.unwrap_or_default(),
        }
    }
}

impl From<Outlook> for StopFlat {
    ghost from_gives = { λ outlook flat. flat ≡ flat_outlook outlook };

    #[tactic(auto, unfolding(score::specs::Best::no_best))]
    fn from(outlook: Outlook) -> StopFlat {
        StopFlat {
            number: 0,
            has_best: outlook.best.is_some().into(),
            has_floor: outlook.floor.is_some().into(),
            no_gain: outlook.no_gain.into(),
            best: outlook.best.unwrap_or_default(),
            floor: outlook.floor.unwrap_or(0.0),
        }
    }
}

impl From<Result<Outlook, Refusal>> for StopFlat {
    ghost from_gives = { λ stopped flat. flat ≡ flat_stopped stopped };

    #[tactic(auto, unfolding(score::specs::Best::no_best))]
    fn from(stopped: Result<Outlook, Refusal>) -> StopFlat {
        match stopped {
            Ok(outlook) => outlook.into(),
            Err(refusal) => StopFlat {
                number: refusal.into(),
                ..StopFlat::default()
            },
        }
    }
}

impl From<Option<Line>> for LastRecord {
    ghost from_gives = { λ last flat. flat ≡ flat_last_line last };

    fn from(last: Option<Line>) -> LastRecord {
        match last {
            Some(line) => LastRecord {
                found: 1,
                line: line.into(),
            },
            None => LastRecord::default(),
        }
    }
}

// A function and not a From, since it takes two values: a flag and a camera.
pub fn finding_of(is_solved: u8, solved: PinholeCamera) -> Finding
    ensures { result ≡ finding_of is_solved solved }
{
    if is_solved != 0 {
        return Finding::Solved(solved);
    }
    Finding::Failed
}

// Copies the part to the front of `to`, and returns how many numbers were copied: 0 where `to` is too short.
pub fn copy_part(part: &[f64], to: &mut [f64]) -> usize
    ensures count { result ≡ copy_count part.now to.old }
    ensures copy { to.new ≡ copied part.now to.old }
{
    let count = part.len();
    if to.len() < count {
        return 0;
    }
    for (i, number) in part.iter().enumerate() {
        to[i] = *number;
    }
    count
}
