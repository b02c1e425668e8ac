// What a row of a table adds to the sums: a type for each kind of sum, so that each is compiled by itself.
ghost use Rattle.std.specs.Prelude.{◌≡◌, T, Float};
ghost use Rattle.polynomial.specs.declared.Order.{Order};
ghost use Rattle.polynomial.specs.declared.Order.TheVariants.{Not, Once, Twice};
ghost use Rattle.polynomial.specs.declared.Kind.TheVariants.{Direct, Alone, AloneShared};
ghost use Rattle.polynomial.specs.declared.Sums.{Sums};
ghost use Rattle.polynomial.specs.Terms.{Row, row, factored};
ghost use Rattle.polynomial.specs.Sums.{step as step_of, first as first_of};
ghost use Rattle.polynomial.specs.Tables.{in_range};
ghost use Rattle.polynomial.specs.Kinds.{only_0_j, only_i_j, only_i_ii_ij_jj, of_shared, OnlyLaws, laws_0_j, laws_i_j, laws_i_ii_ij_jj};

use crate::powers::Powers;
use crate::{Kind, Order, Sums, none};
use std::marker::PhantomData;

// How often a power is derived.
pub trait Derived {
    ghost order: { Order };

    // x times v to the k, derived so often.
    fn times(x: f64, v: &Powers, k: i32) -> f64
        requires { T (in_range k) }
        ensures { result ≡ factored order v.now k x };
}

pub struct Not;

pub struct Once;

pub struct Twice;

impl Derived for Not {
    ghost order = { Not };

    fn times(x: f64, v: &Powers, k: i32) -> f64 {
        x * v.power(k)
    }
}

impl Derived for Once {
    ghost order = { Once };

    fn times(x: f64, v: &Powers, k: i32) -> f64 {
        x * (k as f64) * v.power(k - 1)
    }
}

impl Derived for Twice {
    ghost order = { Twice };

    fn times(x: f64, v: &Powers, k: i32) -> f64 {
        x * ((k * (k - 1)) as f64) * v.power(k - 2)
    }
}

// Which of the sums that share their powers are read; the others are 0.
pub trait Read {
    ghost only: { Sums → Sums };

    ghost laws: { OnlyLaws only };

    fn only(s: Sums) -> Sums
        ensures { result ≡ only s };
}

// The first and that by vj.
pub struct ZeroJ;

// Those by vi and by vj.
pub struct IJ;

// Those by vi, twice by vi, by both and twice by vj.
pub struct IIiIjJj;

impl Read for ZeroJ {
    ghost only = { only_0_j };

    ghost laws = { laws_0_j };

    fn only(s: Sums) -> Sums {
        Sums {
            zero: s.zero,
            j: s.j,
            ..none()
        }
    }
}

impl Read for IJ {
    ghost only = { only_i_j };

    ghost laws = { laws_i_j };

    fn only(s: Sums) -> Sums {
        Sums {
            i: s.i,
            j: s.j,
            ..none()
        }
    }
}

impl Read for IIiIjJj {
    ghost only = { only_i_ii_ij_jj };

    ghost laws = { laws_i_ii_ij_jj };

    fn only(s: Sums) -> Sums {
        Sums {
            zero: 0.0,
            j: 0.0,
            ..s
        }
    }
}

// The sums with one more row.
// i, j and n stay three parameters: a row as a value with an invariant would be made at every row of every sum and opened at once, and be no plainer.
pub trait Step {
    ghost step: { Float → Float → Sums → Row → Sums };

    fn with_row(s: Sums, vi: &Powers, vj: &Powers, i: i32, j: i32, n: f64) -> Sums
        requires { T (in_range i) × T (in_range j) }
        ensures { result ≡ step vi.now vj.now s (row i j n) };
}

// Terms with the power of vi derived as `I` says and that of vj as `J` does.
pub struct Direct<I, J> {
    of_i: PhantomData<I>,
    of_j: PhantomData<J>,
}

// The sums that share their powers, those that are read.
pub struct Shared<R> {
    read: PhantomData<R>,
}

// Terms with one power, derived as `D` says.
pub struct Alone<D> {
    of_j: PhantomData<D>,
}

// Terms with one power, and those times the exponent.
pub struct AloneShared;

// The sums with one more term in the first.
fn with_first(s: Sums, x: f64) -> Sums
    ensures { result ≡ first_of x s }
{
    Sums {
        zero: s.zero + x,
        ..s
    }
}

// The shared sums with one more row.
fn with_shared(s: Sums, vi: &Powers, vj: &Powers, i: i32, j: i32, n: f64) -> Sums
    requires { T (in_range i) × T (in_range j) }
    ensures { result ≡ step_of Kind.Shared vi.now vj.now s (row i j n) }
{
    let m = Not::times(n, vi, i);
    let x = Not::times(m, vj, j);
    let y = (i as f64) * x;
    Sums {
        zero: s.zero + x,
        i: s.i + y,
        j: s.j + (j as f64) * x,
        ii: s.ii + ((i - 1) as f64) * y,
        ij: s.ij + (j as f64) * y,
        jj: s.jj + ((j * (j - 1)) as f64) * x,
    }
}

impl<I: Derived, J: Derived> Step for Direct<I, J> {
    ghost step = { step_of (Direct I.order J.order) };

    fn with_row(s: Sums, vi: &Powers, vj: &Powers, i: i32, j: i32, n: f64) -> Sums {
        with_first(s, J::times(I::times(n, vi, i), vj, j))
    }
}

impl<R: Read> Step for Shared<R> {
    ghost step = { of_shared R.only };

    fn with_row(s: Sums, vi: &Powers, vj: &Powers, i: i32, j: i32, n: f64) -> Sums {
        R::only(with_shared(s, vi, vj, i, j, n))
    }
}

impl<D: Derived> Step for Alone<D> {
    ghost step = { step_of (Alone D.order) };

    fn with_row(s: Sums, _vi: &Powers, vj: &Powers, _i: i32, j: i32, n: f64) -> Sums {
        with_first(s, D::times(n, vj, j))
    }
}

impl Step for AloneShared {
    ghost step = { step_of AloneShared };

    fn with_row(s: Sums, _vi: &Powers, vj: &Powers, _i: i32, j: i32, n: f64) -> Sums {
        let x = Not::times(n, vj, j);
        Sums {
            zero: s.zero + x,
            j: s.j + x * (j as f64),
            ..s
        }
    }
}
