// Exact values of doubles. The crate is its definitions (specs/) and its laws (proofs/); the middle is the one function that is theirs alone.
#![tactic(auto)]

ghost use Rattle.std.specs.Prelude.{◌≡◌};
ghost use Rattle.exact.specs.Middle.{middle as middle_of};

// The middle of two ends, as both searches take it.
pub fn middle(x1: f64, x2: f64) -> f64
    ensures { result ≡ middle_of x1 x2 }
{
    0.5 * (x1 + x2)
}
