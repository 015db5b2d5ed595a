// The theorems about what this crate defines, each as the contract of a function that does nothing.

ghost use Rattle.camera.specs.Theorem.{NoDistortion, UndistortionDescends, TiltsInvertible};

/// A lens whose coefficients are all 0 leaves a point where it is, but for the sign of a zero, as long as r6 is finite.
/// Where r6 isn't, both coordinates are NaN.
#[tactic(auto, using(crate::proofs::NoDistortion::distorted_without_distortion))]
pub fn no_distortion_law()
    ensures { NoDistortion }
{}

/// The distortion of each point that undistortion accepts is closer to the target than that of the one before, from the
/// target itself on, and the reply is the last Newton step from the last such point.
#[tactic(auto, using(crate::proofs::Descent::descends))]
pub fn descent_law()
    ensures { UndistortionDescends }
{}

/// A tilt of at most 0.5 about each axis has an inverse: the determinant of its matrix is above 0.5.
#[tactic(auto, using(crate::specs::Invertible::tilts_invertible))]
pub fn invertible_law()
    ensures { TiltsInvertible }
{}
