// The processor's square root, which is one instruction. In proofs it is the square root of the kit's IEEE 754 library,
// and the crate `root` proves that this is the root that it defines, so every contract names the same root.

ghost use Rattle.std.specs.Prelude.{◌≡◌};
ghost use Rattle.std.specs.Float.{binary64};
ghost use Rattle.root.specs.Root.{root};

// The square root, correctly rounded.
pub fn sqrt(x: f64) -> f64
    ensures { result ≡ root binary64 x }
{
    x.sqrt()
}
