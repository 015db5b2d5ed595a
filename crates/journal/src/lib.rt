// The journal: one line for each answered candidate; and the counts that a report is made of. `writing` writes lines
// to a lent buffer, `reading` reads them back, `reader` keeps a journal's bytes and its place in them, and `report`
// writes the report.

#![tactic(auto)]

pub mod laws;
pub mod outcome;
pub mod reader;
pub mod reading;
pub mod report;
pub mod total;
pub mod writing;

use camera::intrinsics::FxFyCxCy;
use score::outcome::SkipReason;
use seeds::CandidateSeed;

// What a scored candidate's line records: its score, its mean error, and its camera.
#[derive(Clone, Copy, Default)]
pub struct ScoredFields {
    pub score: f64,
    pub mean: f64,
    pub k: FxFyCxCy,
    pub p1: f64,
    pub p2: f64,
}

// What a line records of an outcome: scored, or skipped for a reason.
pub type Recorded = Result<ScoredFields, SkipReason>;

// The line of one answered candidate.
#[derive(Clone, Copy)]
pub struct Line {
    pub number: usize,
    pub round: usize,
    pub seed: CandidateSeed,
    pub outcome: Recorded,
}

// A line whose reason for a skip is a number, as other languages have it: one that no reason has is no line of the
// journal.
#[derive(Clone, Copy)]
pub struct NumberedLine {
    pub number: usize,
    pub round: usize,
    pub seed: CandidateSeed,
    pub outcome: Result<ScoredFields, u8>,
}

// How many candidates were scored, and how many skipped for each reason.
#[repr(C)]
#[derive(Clone, Copy, Default)]
pub struct Counts {
    pub scored: usize,
    pub host_failed: usize,
    pub bad_camera: usize,
    pub no_mean: usize,
    pub no_number: usize,
}

// What reading at a place gives: a line with the place behind it, the end, or the line's number, from 1, where the
// bytes are no line. An Option in a Result would nest two of these three.
#[derive(Clone, Copy)]
pub enum Read {
    Got(Line, usize),
    End,
    NotALine(usize),
}
