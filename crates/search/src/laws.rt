// The theorems about what this crate defines, each as the contract of a function that does nothing.

ghost use Rattle.search.specs.Theorem.{StopFloorHolds};

/// Whichever camera the host finds, no candidate from the seeds left scores below the floor that the stop call replies.
#[tactic(auto, using(crate::proofs::StopLaws::stop_floor_holds))]
pub fn stop_floor_law()
    ensures { StopFloorHolds }
{}
