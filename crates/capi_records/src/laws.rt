// The theorems about what this crate defines, each as the contract of a function that does nothing.

ghost use Rattle.capi_records.specs.Theorem.{ComesBack};

/// A run that crosses the boundary comes back as it was, and so does a line.
#[tactic(auto, using(crate::specs::RoundTrip::comes_back))]
pub fn round_trip_law()
    ensures { ComesBack }
{}
