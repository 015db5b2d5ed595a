// The reference model of a search, kept from Start's inputs and the calls alone, and the theorem that every list of
// calls gets the model's replies. There is no code here: specs/ has the definitions and the statement, proofs/ the
// proof.

#![tactic(auto)]

ghost use Rattle.book.specs.Theorem.{SearchIsBook};

/// Every reply of every list of calls is the reference model's, and a winner is the earliest candidate with the lowest
/// score.
pub fn search_law()
    ensures { SearchIsBook }
{}
