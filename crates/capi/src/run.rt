// The search: Start and the calls over the run's record, and the winner of two stretches. The caller keeps the record
// that a call returns, and hands it to the next call.
ghost use Rattle.std.specs.Prelude.{◌≡◌};
ghost use Rattle.search.specs.Start.{start_reply, start_list};
ghost use Rattle.search.specs.Next.{next_def, seed_part};
ghost use Rattle.search.specs.Answer.{answer_def};
ghost use Rattle.search.specs.Result.{result_def};
ghost use Rattle.search.specs.Progress.{progress_def};
ghost use Rattle.search.specs.Stop.{stop_def};
ghost use Rattle.search.specs.Last.{last_def};
ghost use Rattle.search.specs.Counts.{counts_def};
ghost use Rattle.score.specs.Winners.{winner_of_bests};
ghost use Rattle.capi_records.specs.Record.{options_from, best_from, flat_best, run_from};
ghost use Rattle.capi_records.specs.Run.{flat_started, flat_next, flat_answer, flat_result, flat_stopped, flat_last_line, finding_of, copied, copy_count};

use camera::intrinsics::FxFyCxCy;
use camera::math::Pt2;
use capi_records::record::{BestRecord, LastRecord, OptionsRecord, RunRecord};
use capi_records::run::{
    AnswerFlat, NextFlat, ResultFlat, StartFlat, StopFlat, copy_part, finding_of,
};
use journal::Counts;
use score::pinhole::PinholeCamera;
use search::progress::ProgressReply;
use search::start::{Inputs, start};

// Start: writes round 0's list to the front of `list`. C lends each list by itself, so there are eight parameters.
#[unsafe(no_mangle)]
pub extern "C" fn jc_start(
    views: usize,
    options: OptionsRecord,
    tilt_x_seeds: &[f64],
    tilt_y_seeds: &[f64],
    decomposition: &[f64],
    base: FxFyCxCy,
    center: Pt2,
    list: &mut [f64],
) -> StartFlat
    ensures reply { result ≡ flat_started (start_reply views (options_from options) tilt_x_seeds.now tilt_y_seeds.now decomposition.now base center list.old) }
    ensures written { list.new ≡ start_list views (options_from options) tilt_x_seeds.now tilt_y_seeds.now decomposition.now base center list.old }
{
    let inputs = Inputs {
        views,
        options: options.into(),
        tilt_x_seeds,
        tilt_y_seeds,
        decomposition,
        base,
        center,
    };
    start(inputs, list).into()
}

// Next: the number of the candidate whose seed is handed out.
#[unsafe(no_mangle)]
pub extern "C" fn jc_next(run: RunRecord, list: &[f64]) -> NextFlat
    ensures { result ≡ flat_next (next_def (run_from run) list.now) }
{
    search::next::next(run.into(), list).into()
}

// The seed call: copies the waiting seed's six numbers to the front of `to`. Returns how many were copied: 6, or 0
// where no seed waits, or where the list or `to` is too short.
#[unsafe(no_mangle)]
pub extern "C" fn jc_seed(run: RunRecord, list: &[f64], to: &mut [f64]) -> usize
    ensures count { result ≡ copy_count (seed_part (run_from run) list.now) to.old }
    ensures copy { to.new ≡ copied (seed_part (run_from run) list.now) to.old }
{
    copy_part(search::next::seed(run.into(), list), to)
}

// Answer: the finding is Failed where `is_solved` is 0, else Solved, since C has no value for Failed alone. The answer
// to a round's last seed writes the next list to the front of `list`.
#[unsafe(no_mangle)]
pub extern "C" fn jc_answer(
    run: RunRecord,
    is_solved: u8,
    solved: PinholeCamera,
    rows: &[f64],
    flags: &[u8],
    list: &mut [f64],
) -> AnswerFlat
    ensures reply { result ≡ flat_answer (answer_def (run_from run) (finding_of is_solved solved) rows.now flags.now list.old).reply }
    ensures written { list.new ≡ (answer_def (run_from run) (finding_of is_solved solved) rows.now flags.now list.old).list }
{
    search::answer::answer(run.into(), finding_of(is_solved, solved), rows, flags, list).into()
}

// Result: the run's best, once the run is over.
#[unsafe(no_mangle)]
pub extern "C" fn jc_result(run: RunRecord) -> ResultFlat
    ensures { result ≡ flat_result (result_def (run_from run)) }
{
    search::result::result(run.into()).into()
}

// Progress: how far the run has come.
#[unsafe(no_mangle)]
pub extern "C" fn jc_progress(run: RunRecord) -> ProgressReply
    ensures { result ≡ progress_def (run_from run) }
{
    search::progress::progress(run.into())
}

// Stop: the best so far, and whether this round could gain anything.
#[unsafe(no_mangle)]
pub extern "C" fn jc_stop(run: RunRecord, list: &[f64]) -> StopFlat
    ensures { result ≡ flat_stopped (stop_def (run_from run) list.now) }
{
    search::stop::stop(run.into(), list).into()
}

// The last entry's line, or nothing before the first answer.
#[unsafe(no_mangle)]
pub extern "C" fn jc_last_line(run: RunRecord) -> LastRecord
    ensures { result ≡ flat_last_line (last_def (run_from run)) }
{
    search::last::last_line(run.into()).into()
}

// How many candidates were scored, and how many skipped for each reason.
#[unsafe(no_mangle)]
pub extern "C" fn jc_counts(run: RunRecord) -> Counts
    ensures { result ≡ counts_def (run_from run) }
{
    search::counts::counts(run.into())
}

// The winner of two stretches of a run's entries, the earlier stretch first.
#[unsafe(no_mangle)]
pub extern "C" fn jc_winner(first: BestRecord, second: BestRecord) -> BestRecord
    ensures { result ≡ flat_best (winner_of_bests (best_from first) (best_from second)) }
{
    score::best::winner(first.into(), second.into()).into()
}
