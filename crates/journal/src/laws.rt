// The theorems about what this crate defines, each as the contract of a function that does nothing.

ghost use Rattle.journal.specs.Theorem.{JournalIsExact, ReportIsExact, FieldsWritten};

/// The bytes of a line are read as that line, what is read as a line is that line's bytes, and a whole journal is read
/// as the lines that were written.
#[tactic(auto, using(crate::proofs::Summary::journal_is_exact))]
pub fn journal_law()
    ensures { JournalIsExact }
{}

/// A report is one line of at most 24 bytes, and no two reports have the same bytes.
#[tactic(auto, using(crate::proofs::Summary::report_is_exact))]
pub fn report_law()
    ensures { ReportIsExact }
{}

/// How some fields and some reports are written.
#[tactic(auto, using(crate::proofs::Examples::fields_written))]
pub fn fields_law()
    ensures { FieldsWritten }
{}
