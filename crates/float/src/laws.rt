// The theorems about what this crate defines, each as the contract of a function that does nothing.

ghost use Rattle.float.specs.Theorem.{WithinByOrder};

/// A number is within a bound exactly where the negated bound is at most it and it is at most the bound, as IEEE 754
/// compares.
#[tactic(auto, using(crate::proofs::Bound::within_order))]
pub fn bound_law()
    ensures { WithinByOrder }
{}
