// Lists of points: their normalisation, the line test, the design matrix of the homography's direct linear transform,
// the two point maps, and the observed centre.

#![tactic(auto)]

pub mod centre;
pub mod homography;
pub mod laws;
pub mod linalg;
pub mod maps;
