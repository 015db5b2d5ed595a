// The theorems about what this crate defines, each as the contract of a function that does nothing.

ghost use Rattle.root.specs.Theorem.{RootIs754, MachineRootIs754};

/// The definition of the root is IEEE 754's square root, for both formats: no value of the format is nearer to the true
/// root, ties don't occur, squares are exact, and the special values are IEEE 754's.
#[tactic(auto, using(crate::proofs::Summary::square_root))]
pub fn root_law()
    ensures { RootIs754 }
{}

/// The machine's square root equals that root for every value of binary64.
#[tactic(auto, using(crate::proofs::MachineRoot::machine_root))]
pub fn machine_root_law()
    ensures { MachineRootIs754 }
{}
