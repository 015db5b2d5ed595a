//! A theorem about the files, as the contract of a function that does nothing.

ghost use Rattle.inputs_file.specs.Theorem.{OneReading};

/// A file says one thing.
pub fn one_reading_law()
    ensures { OneReading }
{}
