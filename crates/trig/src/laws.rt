// The theorems about what this crate defines, each as the contract of a function that does nothing.

ghost use Rattle.trig.specs.Theorem.{SeriesRight};

/// Of a number of at most 0.5 in size, sine and cosine are within 2^-50 of the exact sum of eight terms; any other
/// argument is refused with 27. The sine of a zero is that zero, and its cosine is 1.
#[tactic(auto, using(crate::proofs::Theorem::series_right))]
pub fn series_law()
    ensures { SeriesRight }
{}
