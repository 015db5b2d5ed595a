// Answer takes the host's finding for the waiting seed: it refuses, or works out the outcome and enters it.

ghost use Rattle.std.specs.Prelude.{◌≡◌, true, ◌-◌, ◌≤◌, length};
ghost use Rattle.seeds.specs.Layout.{Leaves, six};
ghost use Rattle.seeds.specs.Rules.{offsets, y_offsets, next_list};
ghost use Rattle.search.specs.Record.{sound};
ghost use Rattle.search.specs.Answer.{answer_refusal, close_round, enter_def, outcome_for, reply_of, answer_def};

use crate::run::{Options, Reply, Run, ended, entered, is_sound, next_step, opened};
use camera::intrinsics::FxFyCxCy;
use camera::sensor::ScheimpflugParams;
use common::Refusal;
use score::outcome::{Finding, Outcome, SkipReason};
use seeds::grids::local_seed_grid;

// What Answer replies to a finding that it takes: Scored with the score, or Skipped with the reason.
#[derive(Clone, Copy)]
pub enum Answered {
    Scored(f64),
    Skipped(SkipReason),
}

impl From<Outcome> for Answered {
    ghost from_gives = { λ outcome answered. answered ≡ reply_of outcome };

    fn from(outcome: Outcome) -> Answered {
        match outcome {
            Ok(scoring) => Answered::Scored(scoring.score),
            Err(reason) => Answered::Skipped(reason),
        }
    }
}

pub type AnswerReply = Reply<Answered>;

// Answer's refusals, of which the first that holds is returned. The record and its list are two parameters, here and
// below, since C keeps them apart; the refusals read no more of the list than its length.
fn answer_refusal(
    run: Run,
    list_len: usize,
    finding: Finding,
    rows: &[f64],
    flags: &[u8],
) -> Result<(), Refusal>
    ensures { result ≡ answer_refusal run list_len finding rows.now flags.now }
{
    if !(is_sound(run) & run.waiting.is_waiting) {
        return Err(Refusal::NoSeedWaiting);
    }
    run.list_refusal(list_len)?;
    score::outcome::finding_refusal(finding, run.waiting.seed.sensor, rows, flags)
}

// Writes the seeds at this step around the tilts, with the camera, and returns how many they are. A one-axis run has 0
// alone for the y offset.
#[tactic(auto, unfolding(seeds::specs::Rules::offsets, seeds::specs::Rules::y_offsets))]
fn next_seeds(
    options: Options,
    step: f64,
    reference_k: FxFyCxCy,
    sensor: ScheimpflugParams,
    list: &mut [f64],
) -> usize
    requires { 54 ≤ length list.old }
    ensures { Leaves six 6 (next_list (offsets step) (y_offsets options.one_axis step) sensor reference_k options.max_abs_tilt) list.old list.new result }
{
    let offsets = [-step, 0.0, step];
    let y_offsets: &[f64] = if options.one_axis {
        &offsets[1..2]
    } else {
        &offsets
    };
    local_seed_grid(
        reference_k,
        sensor,
        &offsets,
        y_offsets,
        options.max_abs_tilt,
        list,
    )
}

// Closes a round: the next list that has a seed opens its round, or the run ends. An empty list ends its round at once.
fn close_round(mut run: Run, list: &mut [f64]) -> Run
    requires round_bound { (run.place.round ≤ run.options.refine_rounds) × (run.options.refine_rounds ≤ 16) }
    requires in_bounds { 54 ≤ length list.old }
    ensures value { result ≡ (close_round (run.options.refine_rounds - run.place.round) run list.old).run }
    ensures list_after { list.new ≡ (close_round (run.options.refine_rounds - run.place.round) run list.old).list }
{
    // `opened` counts the round in the record, by which the next step is chosen; a `for` would count it a second time.
    while run.place.round < run.options.refine_rounds {
        let Some(best) = run.round_best.or(run.run_best).candidate() else {
            break;
        };
        let step = next_step(run);
        let len = next_seeds(run.options, step, best.camera.k, best.sensor, list);
        run = opened(run, len);
        if len != 0 {
            return run;
        }
    }
    ended(run)
}

// Enters an outcome for the waiting seed: the round goes on, or ends with its last seed.
pub fn enter(mut run: Run, list: &mut [f64], outcome: Outcome) -> Run
    requires run_value { sound run ≡ true }
    requires is_waiting_value { run.waiting.is_waiting ≡ true }
    requires demand_in_bounds { run.place.demand ≤ length list.old }
    ensures value { result ≡ (enter_def run list.old outcome).run }
    ensures list_after { list.new ≡ (enter_def run list.old outcome).list }
{
    run = entered(run, outcome);
    if run.place.len <= run.place.at {
        run = close_round(run, list);
    }
    run
}

// The outcome of a finding for the seed that waits.
#[tactic(auto, unfolding(crate::specs::Answer::outcome_for))]
fn outcome_for(run: Run, finding: Finding, rows: &[f64], flags: &[u8]) -> Outcome
    ensures { result ≡ outcome_for run finding rows.now flags.now }
{
    score::outcome::finding_outcome(
        run.options.min_counted,
        finding,
        run.waiting.seed.sensor,
        run.center,
        rows,
        flags,
    )
}

pub fn answer(
    run: Run,
    finding: Finding,
    rows: &[f64],
    flags: &[u8],
    list: &mut [f64],
) -> AnswerReply
    ensures value { result ≡ (answer_def run finding rows.now flags.now list.old).reply }
    ensures list_after { list.new ≡ (answer_def run finding rows.now flags.now list.old).list }
{
    if let Err(refusal) = answer_refusal(run, list.len(), finding, rows, flags) {
        return AnswerReply {
            reply: Err(refusal),
            run,
        };
    }
    let outcome = outcome_for(run, finding, rows, flags);
    AnswerReply {
        reply: Ok(Answered::from(outcome)),
        run: enter(run, list, outcome),
    }
}
