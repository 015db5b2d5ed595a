// The theorem about every list of calls, for the exported functions: what a host in another language reads off their
// flat replies is what the reference model replies. There is no code here: specs/ has the definitions and the
// statement, proofs/ the proof.

#![tactic(auto)]

ghost use Rattle.capi_book.specs.Theorem.{ExportedRight};

/// What a host reads off the flat replies of every list of exported calls is what the reference model replies.
#[tactic(auto, using(crate::proofs::Theorem::exported_right))]
pub fn exported_law()
    ensures { ExportedRight }
{}
