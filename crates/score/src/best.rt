// The best of the scored candidates: the earliest with the lowest score. A run replaces it by each better candidate. A
// candidate whose score isn't a number never replaces one, whatever a record holds.

ghost use Rattle.std.specs.Prelude.{◌≡◌};
ghost use Rattle.score.specs.Best.{is_better, no_best, or_best, best_candidate};
ghost use Rattle.score.specs.Winners.{winner_of_bests};

use crate::pinhole::PinholeCamera;
use camera::sensor::ScheimpflugParams;

// A scored candidate: its number, counted from 0 over the run, its solved camera, its seed's tilts, its mean error and its score.
#[repr(C)]
#[derive(Clone, Copy, Default)]
pub struct Candidate {
    pub number: usize,
    pub camera: PinholeCamera,
    pub sensor: ScheimpflugParams,
    pub mean_reproj_error: f64,
    pub score: f64,
}

// The best so far, if there is one. Where there is none, the candidate's numbers are 0. It is no Option, since the C
// interface hands both fields in and out, and their numbers have to stay as they are also where none is found.
#[derive(Clone, Copy, Default)]
pub struct Best {
    pub found: bool,
    pub candidate: Candidate,
}

impl Best {
    // This best, or the other where this one has no candidate, like Option's `or`.
    pub fn or(self, other: Best) -> Best
        ensures { result ≡ or_best self other }
    {
        if self.found {
            return self;
        }
        other
    }

    // The best's candidate, if there is one.
    pub fn candidate(self) -> Option<Candidate>
        ensures { result ≡ best_candidate self }
    {
        self.found.then_some(self.candidate)
    }
}

// The best where there is no candidate yet. The definitions of the calls say `no_best`; with Best::default() in its
// place the proof of a caller, such as `opened` of search, would have to unfold all of the numbers.
#[tactic(auto, unfolding(crate::specs::Best::no_best))]
pub fn no_best() -> Best
    ensures { result ≡ no_best }
{
    Best::default()
}

// Whether a candidate replaces the best: its score is a number, and there is no best yet, or its score is NaN or
// higher.
#[tactic(auto, unfolding(crate::specs::Best::is_better, crate::specs::Best::beats))]
pub fn is_better(candidate: Candidate, current: Best) -> bool
    ensures { result ≡ is_better candidate current }
{
    if candidate.score.is_nan() {
        return false;
    }
    let Some(best) = current.candidate() else {
        return true;
    };
    best.score.is_nan() | (candidate.score < best.score)
}

// The best after one more candidate.
#[tactic(auto, unfolding(crate::specs::Best::improved))]
pub fn improved(current: Best, candidate: Candidate) -> Best
    ensures { result ≡ Rattle.score.specs.Best.improved current candidate }
{
    if is_better(candidate, current) {
        return Best {
            found: true,
            candidate,
        };
    }
    current
}

// The winner of two stretches of candidates, the earlier one first: a lower score wins, an equal one doesn't, and a stretch without a candidate leaves the
// other's.
#[tactic(auto, unfolding(crate::specs::Winners::winner_of_bests, crate::specs::Best::is_better))]
pub fn winner(first: Best, second: Best) -> Best
    ensures { result ≡ winner_of_bests first second }
{
    if !first.found {
        return second;
    }
    let Some(candidate) = second.candidate() else {
        return first;
    };
    if is_better(candidate, first) {
        return second;
    }
    first
}
