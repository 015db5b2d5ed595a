// The run's record with its flags as bytes, and the ways there and back.
// Each struct that holds a flag mirrors one of the search's: C may hand in any byte, and a byte that is neither 0 nor 1
// isn't a bool.
ghost use Rattle.std.specs.Prelude.{◌≡◌};
ghost use Rattle.capi_records.specs.Record.{options_from, flat_options, place_from, flat_place, waiting_from, flat_waiting, best_from, flat_best, last_from, flat_last, run_from, flat_run};

use crate::journals::LineRecord;
use camera::math::Pt2;
use journal::Counts;
use score::best::{Best, Candidate};
use search::run::{LastAnswer, Options, Place, Run, Waiting};
use seeds::CandidateSeed;

#[repr(C)]
#[derive(Clone, Copy, Default)]
pub struct OptionsRecord {
    pub refine_rounds: usize,
    pub refine_step: f64,
    pub max_abs_tilt: f64,
    pub one_axis: u8,
    pub min_counted: usize,
}

#[repr(C)]
#[derive(Clone, Copy, Default)]
pub struct PlaceRecord {
    pub demand: usize,
    pub round: usize,
    pub step: f64,
    pub len: usize,
    pub at: usize,
    pub number: usize,
    pub over: u8,
}

#[repr(C)]
#[derive(Clone, Copy, Default)]
pub struct WaitingRecord {
    pub is_waiting: u8,
    pub seed: CandidateSeed,
}

#[repr(C)]
#[derive(Clone, Copy, Default)]
pub struct BestRecord {
    pub found: u8,
    pub candidate: Candidate,
}

// The last answered candidate's line, if found is not 0.
#[repr(C)]
#[derive(Clone, Copy, Default)]
pub struct LastRecord {
    pub found: u8,
    pub line: LineRecord,
}

// Every call answers a record of zeros (`default`) as a run that is over with nothing scored.
#[repr(C)]
#[derive(Clone, Copy, Default)]
pub struct RunRecord {
    pub options: OptionsRecord,
    pub center: Pt2,
    pub place: PlaceRecord,
    pub waiting: WaitingRecord,
    pub round_best: BestRecord,
    pub run_best: BestRecord,
    pub last: LastRecord,
    pub counts: Counts,
}

impl From<OptionsRecord> for Options {
    ghost from_gives = { λ flat options. options ≡ options_from flat };

    fn from(flat: OptionsRecord) -> Options {
        Options {
            refine_rounds: flat.refine_rounds,
            refine_step: flat.refine_step,
            max_abs_tilt: flat.max_abs_tilt,
            one_axis: flat.one_axis != 0,
            min_counted: flat.min_counted,
        }
    }
}

impl From<Options> for OptionsRecord {
    ghost from_gives = { λ options flat. flat ≡ flat_options options };

    fn from(options: Options) -> OptionsRecord {
        OptionsRecord {
            refine_rounds: options.refine_rounds,
            refine_step: options.refine_step,
            max_abs_tilt: options.max_abs_tilt,
            one_axis: options.one_axis.into(),
            min_counted: options.min_counted,
        }
    }
}

impl From<PlaceRecord> for Place {
    ghost from_gives = { λ flat place. place ≡ place_from flat };

    fn from(flat: PlaceRecord) -> Place {
        Place {
            demand: flat.demand,
            round: flat.round,
            step: flat.step,
            len: flat.len,
            at: flat.at,
            number: flat.number,
            over: flat.over != 0,
        }
    }
}

impl From<Place> for PlaceRecord {
    ghost from_gives = { λ place flat. flat ≡ flat_place place };

    fn from(place: Place) -> PlaceRecord {
        PlaceRecord {
            demand: place.demand,
            round: place.round,
            step: place.step,
            len: place.len,
            at: place.at,
            number: place.number,
            over: place.over.into(),
        }
    }
}

impl From<WaitingRecord> for Waiting {
    ghost from_gives = { λ flat waiting. waiting ≡ waiting_from flat };

    fn from(flat: WaitingRecord) -> Waiting {
        Waiting {
            is_waiting: flat.is_waiting != 0,
            seed: flat.seed,
        }
    }
}

impl From<Waiting> for WaitingRecord {
    ghost from_gives = { λ waiting flat. flat ≡ flat_waiting waiting };

    fn from(waiting: Waiting) -> WaitingRecord {
        WaitingRecord {
            is_waiting: waiting.is_waiting.into(),
            seed: waiting.seed,
        }
    }
}

impl From<BestRecord> for Best {
    ghost from_gives = { λ flat best. best ≡ best_from flat };

    fn from(flat: BestRecord) -> Best {
        Best {
            found: flat.found != 0,
            candidate: flat.candidate,
        }
    }
}

impl From<Best> for BestRecord {
    ghost from_gives = { λ best flat. flat ≡ flat_best best };

    fn from(best: Best) -> BestRecord {
        BestRecord {
            found: best.found.into(),
            candidate: best.candidate,
        }
    }
}

impl From<LastRecord> for LastAnswer {
    ghost from_gives = { λ last answer. answer ≡ last_from last };

    fn from(last: LastRecord) -> LastAnswer {
        let line = last.line;
        LastAnswer {
            found: last.found != 0,
            number: line.number,
            round: line.round,
            seed: line.seed,
            skipped: line.skipped,
            scored: line.into(),
        }
    }
}

impl From<LastAnswer> for LastRecord {
    ghost from_gives = { λ answer last. last ≡ flat_last answer };

    fn from(answer: LastAnswer) -> LastRecord {
        LastRecord {
            found: answer.found.into(),
            line: LineRecord {
                number: answer.number,
                round: answer.round,
                seed: answer.seed,
                skipped: answer.skipped,
                ..answer.scored.into()
            },
        }
    }
}

impl From<RunRecord> for Run {
    ghost from_gives = { λ flat run. run ≡ run_from flat };

    fn from(flat: RunRecord) -> Run {
        Run {
            options: flat.options.into(),
            center: flat.center,
            place: flat.place.into(),
            waiting: flat.waiting.into(),
            round_best: flat.round_best.into(),
            run_best: flat.run_best.into(),
            last: flat.last.into(),
            counts: flat.counts,
        }
    }
}

impl From<Run> for RunRecord {
    ghost from_gives = { λ run flat. flat ≡ flat_run run };

    fn from(run: Run) -> RunRecord {
        RunRecord {
            options: run.options.into(),
            center: run.center,
            place: run.place.into(),
            waiting: run.waiting.into(),
            round_best: run.round_best.into(),
            run_best: run.run_best.into(),
            last: run.last.into(),
            counts: run.counts,
        }
    }
}
