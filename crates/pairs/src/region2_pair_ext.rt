// The pairs of region 2, by their names in the Rust. Each stays a function: docs/PROMISES.md names it.
ghost use Rattle.std.specs.Prelude.{◌≡◌};
ghost use Rattle.pairs.specs.Pairs.{asks, pair as pair_of};

use crate::pair::pair;
use crate::row::Pair;
use search::bracket::Outcome;

// (p,v) to T.
pub fn pv2T_reg2(p: f64, v: f64, limit: u32) -> Outcome
    ensures { result ≡ pair_of (asks Pair.Pv2 p v) limit }
{
    pair(Pair::Pv2, p, v, limit)
}

// (T,v) to p.
pub fn Tv2p_reg2(T: f64, v: f64, limit: u32) -> Outcome
    ensures { result ≡ pair_of (asks Pair.Tv2 T v) limit }
{
    pair(Pair::Tv2, T, v, limit)
}

// (T,h) to p.
pub fn Th2p_reg2(T: f64, h: f64, limit: u32) -> Outcome
    ensures { result ≡ pair_of (asks Pair.Th2 T h) limit }
{
    pair(Pair::Th2, T, h, limit)
}

// (T,s) to p.
pub fn Ts2p_reg2(T: f64, s: f64, limit: u32) -> Outcome
    ensures { result ≡ pair_of (asks Pair.Ts2 T s) limit }
{
    pair(Pair::Ts2, T, s, limit)
}
