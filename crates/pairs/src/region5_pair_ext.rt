// The pairs of region 5, by their names in the Rust. Each stays a function: docs/PROMISES.md names it.
ghost use Rattle.std.specs.Prelude.{◌≡◌};
ghost use Rattle.pairs.specs.Pairs.{asks, pair as pair_of};

use crate::pair::pair;
use crate::row::Pair;
use search::bracket::Outcome;

// (T,v) to p.
pub fn Tv2p_reg5(T: f64, v: f64, limit: u32) -> Outcome
    ensures { result ≡ pair_of (asks Pair.Tv5 T v) limit }
{
    pair(Pair::Tv5, T, v, limit)
}

// (T,h) to p.
pub fn Th2p_reg5(T: f64, h: f64, limit: u32) -> Outcome
    ensures { result ≡ pair_of (asks Pair.Th5 T h) limit }
{
    pair(Pair::Th5, T, h, limit)
}

// (T,s) to p.
pub fn Ts2p_reg5(T: f64, s: f64, limit: u32) -> Outcome
    ensures { result ≡ pair_of (asks Pair.Ts5 T s) limit }
{
    pair(Pair::Ts5, T, s, limit)
}
