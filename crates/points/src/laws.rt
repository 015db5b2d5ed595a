// The theorems about what this crate defines, each as the contract of a function that does nothing.

ghost use Rattle.points.specs.Theorem.{MeanNotBelow, FrontsRight, RowsNormalised};

/// The mean distance from a point is not below 0, whatever the points are.
#[tactic(auto, using(crate::specs::MeanDistance::mean_not_below))]
pub fn mean_distance_law()
    ensures { MeanNotBelow }
{}

/// Normalising points and writing design rows change exactly the front of the destination, and nothing where they
/// refuse.
#[tactic(auto, using(crate::proofs::Front::fronts_right))]
pub fn fronts_law()
    ensures { FrontsRight }
{}

/// Both lists of points for which design rows are written can be normalised: their mean distance isn't at most
/// 2^-52.
#[tactic(auto, using(crate::proofs::Spread::rows_normalised))]
pub fn rows_normalised_law()
    ensures { RowsNormalised }
{}
