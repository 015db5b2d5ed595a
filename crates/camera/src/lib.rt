// The camera: a point of the plane, the intrinsics, the lens distortion and its inverse, matrices of three by three
// numbers, and the tilted sensor that they describe.

#![tactic(auto)]

pub mod distortion;
pub mod intrinsics;
pub mod laws;
pub mod math;
pub mod matrix;
pub mod sensor;
pub mod undistort;
