// The theorems about what this crate defines, each as the contract of a function that does nothing.

ghost use Rattle.seeds.specs.Theorem.{MergingRight, TypedTilts, NoSignPreferred, LaterLists, ExactLength};

/// Merging keeps each entry that is offered, or one near it, and keeps none that is near an earlier one. The search
/// names the newest kept entry that is near.
#[tactic(auto, using(crate::proofs::Newest::merging_right))]
pub fn merging_law()
    ensures { MergingRight }
{}

/// Every pair of typed tilts within the bound is tried by a seed of round 0's list. Its seeds lie within the bound, if
/// the decomposition seeds do, and within the limits of Start there are at most 512.
#[tactic(auto, using(crate::proofs::Tried::typed_tilts))]
pub fn typed_tilts_law()
    ensures { TypedTilts }
{}

/// No sign is preferred: round 0's list for negated tilts is round 0's list with its tilts negated.
#[tactic(auto, using(crate::proofs::Mirror::initial_list_negated))]
pub fn no_side_law()
    ensures { NoSignPreferred }
{}

/// A later round's list has at most one seed for each pair of offsets, each within the bound and near no earlier one,
/// and at least one around a parent within the bound. A one-axis run has at most three, with tilt_y +0.
#[tactic(auto, using(crate::proofs::AnyOffsets::later_lists))]
pub fn later_lists_law()
    ensures { LaterLists }
{}

/// With a bound of at most 0.5 and a step from 1e-11 to 1, a later round's list has exactly as many seeds as there are
/// admissible x tilts times admissible y tilts.
#[tactic(auto, using(crate::proofs::Exact::list_length_is_exact))]
pub fn exact_length_law()
    ensures { ExactLength }
{}
