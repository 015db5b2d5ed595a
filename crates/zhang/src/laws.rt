// The theorems about what this crate defines, each as the contract of a function that does nothing.

ghost use Rattle.zhang.specs.Theorem.{CameraRecovered, PlateRight, CasesHold};

/// A camera of whole numbers up to 256, times a power of two, comes back from its conic, and from the negated one.
#[tactic(auto, using(crate::proofs::Exact::camera_recovered))]
pub fn recovered_law()
    ensures { CameraRecovered }
{}

/// A camera whose four numbers are whole multiples of one unit comes back from its six numbers, and every other one is
/// refused with 34.
#[tactic(auto, using(crate::proofs::Given::plate_right))]
pub fn plate_law()
    ensures { PlateRight }
{}

/// Each camera of the table gets the six numbers that the table gives, and comes back from them, or is refused.
#[tactic(auto, using(crate::proofs::Cases::cases_hold))]
pub fn plate_cases_law()
    ensures { CasesHold }
{}
