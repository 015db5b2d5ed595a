// What a line records of an outcome or of a skip number, the outcome that a line records, and a scored line's numbers.

ghost use Rattle.std.specs.Prelude.{◌≡◌};
ghost use Rattle.journal.specs.Line.{eight};
ghost use Rattle.journal.specs.Numbered.{line_numbered};
ghost use Rattle.journal.specs.Outcome.{fields_of, recorded_as, scoring_in, outcome_in, recorded_with};
ghost use Rattle.journal.specs.Reading.{scored_at};

use crate::{Line, NumberedLine, Recorded, ScoredFields};
use camera::distortion::BrownConrady5;
use camera::intrinsics::FxFyCxCy;
use common::Refusal;
use score::outcome::{Outcome, Scoring, SkipReason};
use score::pinhole::PinholeCamera;

impl From<Scoring> for ScoredFields {
    ghost from_gives = { λ scoring fields. fields ≡ fields_of scoring };

    fn from(scoring: Scoring) -> ScoredFields {
        let k = scoring.camera.k;
        ScoredFields {
            score: scoring.score,
            mean: scoring.mean,
            k,
            p1: scoring.camera.dist.p1,
            p2: scoring.camera.dist.p2,
        }
    }
}

// A scored camera's radial coefficients are 0, so that a line has none.
impl From<ScoredFields> for Scoring {
    ghost from_gives = { λ fields scoring. scoring ≡ scoring_in fields };

    fn from(fields: ScoredFields) -> Scoring {
        let k = fields.k;
        let dist = BrownConrady5 {
            p1: fields.p1,
            p2: fields.p2,
            ..BrownConrady5::default()
        };
        Scoring {
            camera: PinholeCamera { k, dist },
            mean: fields.mean,
            score: fields.score,
        }
    }
}

// The eight numbers of a scored candidate, in the order that its line has them.
impl From<ScoredFields> for [f64; 8] {
    ghost from_gives = { λ fields numbers. numbers ≡ eight fields };

    fn from(fields: ScoredFields) -> [f64; 8] {
        let camera = fields.k;
        [
            fields.score,
            fields.mean,
            camera.fx,
            camera.fy,
            camera.cx,
            camera.cy,
            fields.p1,
            fields.p2,
        ]
    }
}

impl From<[f64; 8]> for ScoredFields {
    ghost from_gives = { λ numbers fields. fields ≡ scored_at numbers };

    fn from(numbers: [f64; 8]) -> ScoredFields {
        ScoredFields {
            score: numbers[0],
            mean: numbers[1],
            k: FxFyCxCy {
                fx: numbers[2],
                fy: numbers[3],
                cx: numbers[4],
                cy: numbers[5],
            },
            p1: numbers[6],
            p2: numbers[7],
        }
    }
}

// A number that no reason has is refused: no line of the journal has it.
impl TryFrom<NumberedLine> for Line {
    type Error = Refusal;

    ghost try_from_gives = { λ numbered line. line ≡ line_numbered numbered };

    fn try_from(numbered: NumberedLine) -> Result<Line, Refusal> {
        let outcome = match numbered.outcome {
            Ok(fields) => Ok(fields),
            Err(reason) => Err(SkipReason::try_from(reason)?),
        };
        Ok(Line {
            number: numbered.number,
            round: numbered.round,
            seed: numbered.seed,
            outcome,
        })
    }
}

pub fn recorded_as(outcome: Outcome) -> Recorded
    ensures { result ≡ recorded_as outcome }
{
    outcome.map(ScoredFields::from)
}

pub fn outcome_in(recorded: Recorded) -> Outcome
    ensures { result ≡ outcome_in recorded }
{
    recorded.map(Scoring::from)
}

// What is recorded where 0 says scored and 1 to 4 the reason for a skip, as the structs of the C interface have it.
// Another number, which C can hand in, is refused, as a line that the journal can't hold.
pub fn recorded_with(skipped: u8, fields: ScoredFields) -> Result<Recorded, Refusal>
    ensures { result ≡ recorded_with skipped fields }
{
    if skipped == 0 {
        return Ok(Ok(fields));
    }
    let reason = SkipReason::try_from(skipped)?;
    Ok(Err(reason))
}
