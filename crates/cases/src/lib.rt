// Worked cases and worked runs (docs/SPECIFICATION.md, chapter 13), proved by computing. There is no code here. The
// cases are one table: specs/Case.antt says what a case claims, specs/Table.antt has the rows and the theorem over all
// of them. The worked runs are whole lists of calls with their replies, computed both by the entry points' definitions
// and by the reference model: specs/Whole.antt, Ended.antt, Lost.antt, Few.antt, Asked.antt, OneAxis.antt.

#![tactic(auto)]

ghost use Rattle.cases.specs.Theorem.{CasesHold};

/// All worked cases hold: the table, the worked runs, and what the theorem about every list of calls says of three of
/// them.
#[tactic(auto, using(crate::proofs::Follows::cases_hold))]
pub fn cases_law()
    ensures { CasesHold }
{}
