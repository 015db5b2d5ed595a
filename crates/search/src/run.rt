// The run's record, which the calls of a search hand on. It holds numbers, bools and structs of those.

ghost use Rattle.std.specs.Prelude.{◌≡◌, ◌<◌, ◌≤◌};
ghost use Rattle.journal.specs.Report.{total};
ghost use Rattle.search.specs.Record.{sound, has_place, list_refusal, last_answer, next_step};

use crate::counting::{add_up, with_count};
use camera::math::Pt2;
use camera::sensor::ScheimpflugParams;
use common::Refusal;
use journal::outcome::recorded_as;
use journal::{Counts, Line, ScoredFields};
use score::best::{Best, Candidate};
use score::outcome::Outcome;
use seeds::CandidateSeed;

// What the search was asked for. The first three are the published Rust's options, by their names. A one-axis run has
// no tilt about y. `min_counted` is the share of an answer's rows, in per cent, that a mean has to rest on.
#[derive(Clone, Copy, Default)]
pub struct Options {
    pub refine_rounds: usize,
    pub refine_step: f64,
    pub max_abs_tilt: f64,
    pub one_axis: bool,
    pub min_counted: usize,
}

// How far the run has come. `demand` is how many numbers the lent list must have. `round` counts from 0. `step` is the
// one that the current list was made with, 0 in round 0. Of the list's `len` seeds the first `at` are answered.
// `number` is the next candidate's, counted over the run. `over` says that the run is over, with a winner or without.
// The list itself is lent for each call, so the record has its lengths and places alone.
#[derive(Clone, Copy, Default)]
pub struct Place {
    pub demand: usize,
    pub round: usize,
    pub step: f64,
    pub len: usize,
    pub at: usize,
    pub number: usize,
    pub over: bool,
}

// The waiting seed: handed out and not answered yet. Its numbers are 0 where there is none. It is no Option, since the
// C interface hands the record in and out, and its numbers have to stay as they are also where the flag is 0.
#[derive(Clone, Copy, Default)]
pub struct Waiting {
    pub is_waiting: bool,
    pub seed: CandidateSeed,
}

// The last answered candidate, as a journal's line records it: `skipped` is 0 where it was scored, else the reason, and
// then `scored` is 0. Nothing is found before the first answer. It has flags and numbers, and no Option or Result, for
// the reason that `Waiting` has.
#[derive(Clone, Copy, Default)]
pub struct LastAnswer {
    pub found: bool,
    pub number: usize,
    pub round: usize,
    pub seed: CandidateSeed,
    pub skipped: u8,
    pub scored: ScoredFields,
}

// The run's record, which each call takes, and which Start, Next and Answer return.
#[derive(Clone, Copy, Default)]
pub struct Run {
    pub options: Options,
    pub center: Pt2,
    pub place: Place,
    pub waiting: Waiting,
    pub round_best: Best,
    pub run_best: Best,
    pub last: LastAnswer,
    pub counts: Counts,
}

// What Next and Answer return: the reply or why there is none, and the run after the call.
#[derive(Clone, Copy)]
pub struct Reply<T> {
    pub reply: Result<T, Refusal>,
    pub run: Run,
}

// An open run has a seed left in its list, and where the run is over, none waits.
#[tactic(auto, unfolding(crate::specs::Record::has_place))]
fn has_place(place: Place, waiting: Waiting) -> bool
    ensures { result ≡ has_place place waiting }
{
    if place.over {
        return !waiting.is_waiting;
    }
    place.at < place.len
}

// Whether Start or a call can have made this record: all that the calls' sums and indexes need.
#[tactic(auto, unfolding(crate::specs::Record::sound))]
pub fn is_sound(run: Run) -> bool
    ensures { result ≡ sound run }
{
    if 512 < run.place.len {
        return false;
    }
    (run.options.min_counted <= 100)
        & (run.options.refine_rounds <= 16)
        & (run.place.round <= run.options.refine_rounds)
        & add_up(run.counts, run.place.number)
        & (6 * run.place.len <= run.place.demand)
        & (54 <= run.place.demand)
        & (run.place.demand <= 3072)
        & has_place(run.place, run.waiting)
}

impl Run {
    // 10 where a lent list of this length is shorter than the run demands.
    pub fn list_refusal(self, list_len: usize) -> Result<(), Refusal>
        ensures { result ≡ list_refusal self list_len }
    {
        if list_len < self.place.demand {
            return Err(Refusal::ListShortened);
        }
        Ok(())
    }
}

impl From<Line> for LastAnswer {
    ghost from_gives = { λ line last. last ≡ last_answer line.number line.round line.seed line.outcome };

    fn from(line: Line) -> LastAnswer {
        let mut last = LastAnswer {
            found: true,
            number: line.number,
            round: line.round,
            seed: line.seed,
            ..LastAnswer::default()
        };
        match line.outcome {
            Ok(fields) => last.scored = fields,
            Err(reason) => last.skipped = reason.into(),
        }
        last
    }
}

// The run with a seed that waits for its answer.
#[tactic(auto, unfolding(crate::specs::Record::awaiting))]
pub fn awaiting(mut run: Run, seed: CandidateSeed) -> Run
    ensures { result ≡ Rattle.search.specs.Record.awaiting run seed }
{
    let waiting = Waiting {
        is_waiting: true,
        seed,
    };
    run.waiting = waiting;
    run
}

// A best after the outcome of the candidate with this number and these tilts.
#[tactic(auto, unfolding(crate::specs::Record::with_outcome))]
fn with_outcome(best: Best, number: usize, sensor: ScheimpflugParams, outcome: Outcome) -> Best
    ensures { result ≡ Rattle.search.specs.Record.with_outcome best number sensor outcome }
{
    let Ok(scoring) = outcome else {
        return best;
    };
    let camera = scoring.camera;
    score::best::improved(
        best,
        Candidate {
            number,
            camera,
            sensor,
            mean_reproj_error: scoring.mean,
            score: scoring.score,
        },
    )
}

// The waiting seed's outcome is entered: nothing waits, the place moves on by one, and the run keeps it as its last answer and counts it.
#[tactic(auto, unfolding(crate::specs::Record::entered))]
pub fn entered(mut run: Run, outcome: Outcome) -> Run
    requires at_bound { (run.place.at < 512) × (run.place.number ≤ 656) }
    requires counts_bound { total run.counts ≤ 656 }
    ensures { result ≡ Rattle.search.specs.Record.entered run outcome }
{
    run.round_best = with_outcome(
        run.round_best,
        run.place.number,
        run.waiting.seed.sensor,
        outcome,
    );
    run.run_best = with_outcome(
        run.run_best,
        run.place.number,
        run.waiting.seed.sensor,
        outcome,
    );
    let recorded = recorded_as(outcome);
    run.last = Line {
        number: run.place.number,
        round: run.place.round,
        seed: run.waiting.seed,
        outcome: recorded,
    }
    .into();
    run.counts = with_count(run.counts, recorded);
    run.waiting = Waiting::default();
    run.place.at += 1;
    run.place.number += 1;
    run
}

// The step of the next round's list: refine_step for round 1's, then half of the last one.
#[tactic(auto, unfolding(crate::specs::Record::next_step))]
pub fn next_step(run: Run) -> f64
    ensures { result ≡ next_step run }
{
    if run.place.round == 0 {
        return run.options.refine_step;
    }
    run.place.step * 0.5
}

// The run at the start of its next round, whose list has this many seeds.
#[tactic(auto, unfolding(crate::specs::Record::round_opened))]
pub fn opened(mut run: Run, len: usize) -> Run
    requires { run.place.round < 16 }
    ensures { result ≡ Rattle.search.specs.Record.round_opened run len }
{
    let step = next_step(run);
    run.place.round += 1;
    run.place.step = step;
    run.place.len = len;
    run.place.at = 0;
    run.round_best = score::best::no_best();
    run
}

#[tactic(auto, unfolding(crate::specs::Record::ended))]
pub fn ended(mut run: Run) -> Run
    ensures { result ≡ Rattle.search.specs.Record.ended run }
{
    run.place.over = true;
    run
}
