// The sums over a table of terms n * vi^I * vj^J and their derivatives: algo/polynomial.rs and algo/polynomial_steps.rs of the Rust, from one loop.
// A table is three parallel arrays, summed tile by tile. The powers of vi and vj are computed once and looked up (`powers`); what a row adds is a type's method (`steps`).
#![tactic(auto)]

ghost use Rattle.std.specs.Prelude.{◌≡◌, ◌+◌, ◌≤◌, min};
ghost use Rattle.polynomial.specs.Terms.{term, total};
ghost use Rattle.polynomial.specs.Sums.{over, none as none_of, from as from_of};
ghost use Rattle.polynomial.specs.Kinds.{divided as divided_of, of_shared};

use crate::powers::Powers;
use crate::steps::{Derived, Direct, Read, Shared, Step};
use crate::table::Table;

pub mod powers;
pub mod steps;
pub mod table;

// How often a power is derived, as contracts name it; `steps` has a type for each.
#[derive(Clone, Copy)]
pub enum Order {
    Not,
    Once,
    Twice,
}

// What is summed, as contracts name it: terms with each power derived as the orders say; the shared sums; terms with one power; and those with that power's shared sums. `steps` has a type for each.
#[derive(Clone, Copy)]
pub enum Kind {
    Direct(Order, Order),
    Shared,
    Alone(Order),
    AloneShared,
}

// The sums on the way: of the terms, and of the terms times what the derivatives by vi, by vj, twice by vi, by both and twice by vj bring down.
#[derive(Clone, Copy)]
pub struct Sums {
    pub zero: f64,
    pub i: f64,
    pub j: f64,
    pub ii: f64,
    pub ij: f64,
    pub jj: f64,
}

// Sums of nothing.
pub fn none() -> Sums
    ensures { result ≡ none_of }
{
    from(0.0)
}

// Sums of nothing, but that of the terms goes on from `start`.
pub fn from(start: f64) -> Sums
    ensures { result ≡ from_of start }
{
    Sums {
        zero: start,
        i: 0.0,
        j: 0.0,
        ii: 0.0,
        ij: 0.0,
        jj: 0.0,
    }
}

// ---- A table is summed in tiles on three levels: a row at a time in `tile`, a tile of three rows at a time in `part`, a part of twelve rows at a time in `tiles`.
// The compiler writes a loop out only where no more than some 300 instructions come of it: so few rows, then so few tiles, then so few parts. Once all is written out, exponents and
// coefficients are constants, the powers that no row needs are gone, and no jump is left. For that it must also take each callee into its caller, up to the function that names the arrays.
// It does not do so by itself where regions 1 and 2 both sum with the same step: so the three are marked, and the two sums over them. A short table goes to `tile` at once.
// `part` and `tiles` stay two loops: one over a size and a callee would need a trait with both, and be longer.
const TILE: usize = 3;

const PART: usize = 12;

// The sums gone on with over a part of a table, row by row. By place: the columns are three.
// vi and vj stay two parameters, here and wherever they are handed on: the definitions take them one by one, and a struct of both would be opened in every contract and at every use.
#[inline(always)]
pub fn tile<S: Step>(s: Sums, vi: &Powers, vj: &Powers, table: &Table<'_>) -> Sums
    ensures { result ≡ over (S.step vi.now vj.now) s table.now }
{
    let mut sums = s;
    // By place: a zip of three columns gives pairs of pairs, and is no plainer.
    for k in 0..table.is.len() {
        sums = S::with_row(sums, vi, vj, table.is[k], table.js[k], table.ns[k]);
    }
    sums
}

// Where what starts at `start` ends: after `size` rows, or at the end n.
fn cut(start: usize, size: usize, n: usize) -> usize
    requires { start ≤ n }
    ensures { result ≡ min (start + size) n }
{
    start + size.min(n - start)
}

// The sums gone on with over a part of a table, tile by tile.
#[inline(always)]
fn part<S: Step>(s: Sums, vi: &Powers, vj: &Powers, table: &Table<'_>) -> Sums
    ensures { result ≡ over (S.step vi.now vj.now) s table.now }
{
    let n = table.len();
    let mut sums = s;
    for start in (0..n).step_by(TILE) {
        sums = tile::<S>(sums, vi, vj, &table.rows(start, cut(start, TILE, n)));
    }
    sums
}

// The sums gone on with over a table, part by part.
#[inline(always)]
pub fn tiles<S: Step>(s: Sums, vi: &Powers, vj: &Powers, table: &Table<'_>) -> Sums
    ensures { result ≡ over (S.step vi.now vj.now) s table.now }
{
    let n = table.len();
    let mut sums = s;
    for start in (0..n).step_by(PART) {
        sums = part::<S>(sums, vi, vj, &table.rows(start, cut(start, PART, n)));
    }
    sums
}

// The sum of the terms, the power of vi derived as `I` says and that of vj as `J` does.
#[inline(always)]
pub fn poly_powi_steps<I: Derived, J: Derived>(vi: &Powers, vj: &Powers, table: &Table<'_>) -> f64
    ensures { result ≡ total (term I.order J.order vi.now vj.now) table.now }
{
    let s = tiles::<Direct<I, J>>(none(), vi, vj, table);
    s.zero
}

// The shared sums, each divided once by what its derivative takes off the powers.
pub fn divided(s: Sums, vi: f64, vj: f64) -> Sums
    ensures { result ≡ divided_of vi vj s }
{
    Sums {
        zero: s.zero,
        i: s.i / vi,
        j: s.j / vj,
        ii: s.ii / (vi * vi),
        ij: s.ij / (vi * vj),
        jj: s.jj / (vj * vj),
    }
}

// The sums that share their powers, those that `R` reads, each divided once by what its derivative takes off the powers.
#[inline(always)]
pub fn polys_powi_steps<R: Read>(vi: &Powers, vj: &Powers, table: &Table<'_>) -> Sums
    ensures { result ≡ divided_of vi.now vj.now (over (of_shared R.only vi.now vj.now) none_of table.now) }
{
    let s = tiles::<Shared<R>>(none(), vi, vj, table);
    divided(s, vi.base(), vj.base())
}
