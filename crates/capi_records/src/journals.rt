// A line of the journal, and the replies of its writer and its reader.
// Each struct has the fields of the one in include/jinnychair.h, in its order.
ghost use Rattle.std.specs.Prelude.{◌≡◌};
ghost use Rattle.capi_records.specs.Journal.{fields_in, flat_scored, numbered_from, line_from, flat_line, flat_written, flat_read};

use crate::lists::refusal_number;
use camera::intrinsics::FxFyCxCy;
use common::Refusal;
use journal::outcome::recorded_with;
use journal::{Line, NumberedLine, Read, ScoredFields};
use seeds::CandidateSeed;

// A line's fields. The line is scored where `skipped` is 0; else `skipped` is the reason, and `score` and the fields
// behind it have no meaning.
#[repr(C)]
#[derive(Clone, Copy, Default)]
pub struct LineRecord {
    pub number: usize,
    pub round: usize,
    pub seed: CandidateSeed,
    pub skipped: u8,
    pub score: f64,
    pub mean: f64,
    pub k: FxFyCxCy,
    pub p1: f64,
    pub p2: f64,
}

// 0 and how many bytes were written, or 28.
#[repr(C)]
#[derive(Clone, Copy)]
pub struct WriteReply {
    pub number: u8,
    pub len: usize,
}

// 0 and a line; or 0 and the end; or 29 and the line's number, counted from 1. `next` is the place behind the line; at
// the end and after 29 it is the place that was asked for.
#[repr(C)]
#[derive(Clone, Copy, Default)]
pub struct ReadReply {
    pub number: u8,
    pub end: u8,
    pub line_number: usize,
    pub line: LineRecord,
    pub next: usize,
}

// What a scored line records; a skipped line's numbers have no meaning.
impl From<LineRecord> for ScoredFields {
    ghost from_gives = { λ flat fields. fields ≡ fields_in flat };

    fn from(flat: LineRecord) -> ScoredFields {
        ScoredFields {
            score: flat.score,
            mean: flat.mean,
            k: flat.k,
            p1: flat.p1,
            p2: flat.p2,
        }
    }
}

// What a scored line records, with 0 for the line's other fields.
impl From<ScoredFields> for LineRecord {
    ghost from_gives = { λ fields flat. flat ≡ flat_scored fields };

    fn from(fields: ScoredFields) -> LineRecord {
        LineRecord {
            score: fields.score,
            mean: fields.mean,
            k: fields.k,
            p1: fields.p1,
            p2: fields.p2,
            ..LineRecord::default()
        }
    }
}

// The line that a record says, whatever its skip number is.
impl From<LineRecord> for NumberedLine {
    ghost from_gives = { λ flat line. line ≡ numbered_from flat };

    fn from(flat: LineRecord) -> NumberedLine {
        let LineRecord {
            number,
            round,
            seed,
            skipped,
            ..
        } = flat;
        let numbered = match skipped {
            0 => Ok(flat.into()),
            reason => Err(reason),
        };
        NumberedLine {
            number,
            round,
            seed,
            outcome: numbered,
        }
    }
}

// A skip number that isn't a reason's is refused: the journal can't hold such a line.
impl TryFrom<LineRecord> for Line {
    type Error = Refusal;

    ghost try_from_gives = { λ flat line. line ≡ line_from flat };

    fn try_from(flat: LineRecord) -> Result<Self, Refusal> {
        let outcome = recorded_with(flat.skipped, flat.into())?;
        Ok(Line {
            number: flat.number,
            round: flat.round,
            seed: flat.seed,
            outcome,
        })
    }
}

impl From<Line> for LineRecord {
    ghost from_gives = { λ line flat. flat ≡ flat_line line };

    fn from(line: Line) -> LineRecord {
        let flat = match line.outcome {
            Ok(fields) => fields.into(),
            Err(reason) => LineRecord {
                skipped: reason.into(),
                ..LineRecord::default()
            },
        };
        LineRecord {
            number: line.number,
            round: line.round,
            seed: line.seed,
            ..flat
        }
    }
}

impl From<Result<usize, Refusal>> for WriteReply {
    ghost from_gives = { λ written reply. reply ≡ flat_written written };

    fn from(written: Result<usize, Refusal>) -> WriteReply {
        WriteReply {
            number: refusal_number(written),
            len: written.unwrap_or_default(),
        }
    }
}

// A function and not a From, since the reply takes two values: what was read, and where.
pub fn read_reply(r: Read, at: usize) -> ReadReply
    ensures { result ≡ flat_read r at }
{
    match r {
        Read::Got(line, next) => ReadReply {
            line: line.into(),
            next,
            ..ReadReply::default()
        },
        Read::End => ReadReply {
            end: 1,
            next: at,
            ..ReadReply::default()
        },
        Read::NotALine(line_number) => ReadReply {
            number: Refusal::NotALine.into(),
            line_number,
            next: at,
            ..ReadReply::default()
        },
    }
}
