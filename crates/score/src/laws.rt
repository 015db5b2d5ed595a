// The theorems about what this crate defines, each as the contract of a function that does nothing.

ghost use Rattle.score.specs.Theorem.{CountedMost, OutcomesRight, ShareRight, TakenInvertible, BestRight, WinnersRight, FloorRight};

/// At most as many errors count as there are flags.
#[tactic(auto, using(crate::proofs::Counted::error_count_le_flags))]
pub fn counted_law()
    ensures { CountedMost }
{}

/// A scored finding has a valid and damped camera, a finite mean not below 0, and a score that is a number; reason 1 is
/// for Failed alone.
#[tactic(auto, using(crate::proofs::Facts::outcomes_right))]
pub fn outcomes_law()
    ensures { OutcomesRight }
{}

/// A mean that is scored rests on its share of the rows. A share of 0 asks for nothing. Where there are no rows, every
/// share is reached and there is no mean.
#[tactic(auto, using(crate::proofs::Share::share_right))]
pub fn share_law()
    ensures { ShareRight }
{}

/// The tilts of a solved finding that isn't refused give a matrix that has an inverse.
#[tactic(auto, using(crate::proofs::Invertible::taken_invertible))]
pub fn taken_law()
    ensures { TakenInvertible }
{}

/// The best of a list is the earliest candidate with the lowest score that is a number, and a run that replaces its
/// best by each better candidate keeps it.
#[tactic(auto, using(crate::proofs::Order::best_right))]
pub fn best_law()
    ensures { BestRight }
{}

/// The winner of the winners of stretches is the best of all candidates, wherever the list is cut.
#[tactic(auto, using(crate::proofs::WinnerLaws::winners_right))]
pub fn winners_law()
    ensures { WinnersRight }
{}

/// The floor of a list is the lowest tilt penalty of its seeds, and no outcome of one of them scores below it.
#[tactic(auto, using(crate::proofs::FloorLaws::floor_right))]
pub fn floor_law()
    ensures { FloorRight }
{}
