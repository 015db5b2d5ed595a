// What holds of journals, over the reference model: the journal of a run, running it again, going on from one that
// was cut off, how many outcomes of each kind it has, and the winners of its stretches; and that the code, which
// walks a journal over the run's record, does what the model does. There is no code here: specs/ has the definitions
// and the statements, proofs/ the proofs.

#![tactic(auto)]

ghost use Rattle.book_journal.specs.Theorem.{JournalsRight, ReplayRight};
ghost use Rattle.book_journal.specs.Worked.{WorkedRight};

/// A run's journal, run again, gives the run's winner. One that is cut anywhere goes on to the same end. The counts and
/// the winners of stretches are the run's.
#[tactic(auto, using(crate::proofs::Theorem::journals_right))]
pub fn journals_law()
    ensures { JournalsRight }
{}

/// What replay and resume reply to the journal of a run of two candidates, whole, damaged and cut.
#[tactic(auto, using(crate::proofs::Worked::worked_right))]
pub fn worked_journal_law()
    ensures { WorkedRight }
{}

/// Replay and resume do with a journal what the reference model says.
#[tactic(auto, using(crate::proofs::Replayed::replay_right))]
pub fn replay_law()
    ensures { ReplayRight }
{}
