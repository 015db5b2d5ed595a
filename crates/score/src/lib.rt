// A finding of the host: the camera that it is scored with and the penalties of the score, the reprojection errors of
// its rows, what is refused of it, and its outcome; the best of the scored candidates, and the floor of the seeds
// that are left in a round.

#![tactic(auto)]

pub mod best;
mod blocks;
pub mod errors;
pub mod floor;
pub mod laws;
pub mod outcome;
pub mod penalties;
pub mod pinhole;
mod rows;
