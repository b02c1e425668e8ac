// The dimensionless Gibbs free energy of region 2: the ideal-gas part and the residual part, their tables and derivatives.
ghost use Rattle.std.specs.Prelude.{◌≡◌};
ghost use Rattle.gibbs.specs.Gibbs.{gamma0_tau, gamma0_tautau, gammar_pi, gammar_tau, gammar_tautau, residual};
ghost use Rattle.r2.specs.Region2.{equation, ideal};
ghost use Rattle.polynomial.specs.Terms.{term, total, alone};
ghost use Rattle.polynomial.specs.Kinds.{only_0_j, only_i_j, only_i_ii_ij_jj};

use float::log::ln;
use polynomial::powers::Powers;
use polynomial::steps::{Alone, AloneShared, Derived, IIiIjJj, IJ, Not, Once, Read, Twice, ZeroJ};
use polynomial::table::Table;
use polynomial::{Sums, from, none, poly_powi_steps, polys_powi_steps, tile};

// Table 10 of the release, by columns.
const J0: [i32; 9] = [0, 1, -5, -4, -3, -2, -1, 2, 3];

const N0: [f64; 9] = [
    -0.96927686500217e1,
    0.10086655968018e2,
    -0.56087911283020e-2,
    0.71452738081455e-1,
    -0.40710498223928e0,
    0.14240819171444e1,
    -0.43839511319450e1,
    -0.28408632460772e0,
    0.21268463753307e-1,
];

// The same as a table; the power of vi, which no ideal-gas term has, is given that of vj.
fn ideal_terms() -> Table<'static>
    ensures { result ≡ equation.ideal_terms }
{
    Table {
        is: &J0,
        js: &J0,
        ns: &N0,
    }
}

// Table 11 of the release, by columns.
const I: [i32; 43] = [
    1, 1, 1, 1, 1, 2, 2, 2, 2, 2, 3, 3, 3, 3, 3, 4, 4, 4, 5, 6, 6, 6, 7, 7, 7, 8, 8, 9, 10, 10, 10,
    16, 16, 18, 20, 20, 20, 21, 22, 23, 24, 24, 24,
];

const J: [i32; 43] = [
    0, 1, 2, 3, 6, 1, 2, 4, 7, 36, 0, 1, 3, 6, 35, 1, 2, 3, 7, 3, 16, 35, 0, 11, 25, 8, 36, 13, 4,
    10, 14, 29, 50, 57, 20, 35, 48, 21, 53, 39, 26, 40, 58,
];

const N: [f64; 43] = [
    -0.17731742473213e-2,
    -0.17834862292358e-1,
    -0.45996013696365e-1,
    -0.57581259083432e-1,
    -0.50325278727930e-1,
    -0.33032641670203e-4,
    -0.18948987516315e-3,
    -0.39392777243355e-2,
    -0.43797295650573e-1,
    -0.26674547914087e-4,
    0.20481737692309e-7,
    0.43870667284435e-6,
    -0.32277677238570e-4,
    -0.15033924542148e-2,
    -0.40668253562649e-1,
    -0.78847309559367e-9,
    0.12790717852285e-7,
    0.48225372718507e-6,
    0.22922076337661e-5,
    -0.16714766451061e-10,
    -0.21171472321355e-2,
    -0.23895741934104e2,
    -0.59059564324270e-17,
    -0.12621808899101e-5,
    -0.38946842435739e-1,
    0.11256211360459e-10,
    -0.82311340897998e1,
    0.19809712802088e-7,
    0.10406965210174e-18,
    -0.10234747095929e-12,
    -0.10018179379511e-8,
    -0.80882908646985e-10,
    0.10693031879409e0,
    -0.33662250574171e0,
    0.89185845355421e-24,
    0.30629316876232e-12,
    -0.42002467698208e-5,
    -0.59056029685639e-25,
    0.37826947613457e-5,
    -0.12768608934681e-14,
    0.73087610595061e-28,
    0.55414715350778e-16,
    -0.94369707241210e-6,
];

// The same as a table.
fn residual_terms() -> Table<'static>
    ensures { result ≡ equation.residual_terms }
{
    Table {
        is: &I,
        js: &J,
        ns: &N,
    }
}

// The ideal-gas part and its derivative in tau, as the entropy shares them.
#[derive(Clone, Copy)]
pub struct Ideal {
    pub part: f64,
    pub derived: f64,
}

// The sum of the ideal-gas terms derived in tau as `Tau` says.
fn ideal_derived<Tau: Derived>(tau: f64) -> f64
    ensures { result ≡ total (alone Tau.order tau) equation.ideal_terms }
{
    let vj = Powers::of(tau);
    let s = tile::<Alone<Tau>>(none(), &vj, &vj, &ideal_terms());
    s.zero
}

// The ideal-gas part's first derivative in tau.
pub fn gamma0_tau_reg2(tau: f64) -> f64
    ensures { result ≡ gamma0_tau equation tau }
{
    ideal_derived::<Once>(tau)
}

// The ideal-gas part's second derivative in tau.
pub fn gamma0_tautau_reg2(tau: f64) -> f64
    ensures { result ≡ gamma0_tautau equation tau }
{
    ideal_derived::<Twice>(tau)
}

// The ideal-gas part, going on from ln pi, and its derivative in tau, divided once.
pub fn gamma0_shared_reg2(pi: f64, tau: f64) -> Ideal
    ensures { result ≡ ideal pi tau }
{
    let vj = Powers::of(tau);
    let s = tile::<AloneShared>(from(ln(pi)), &vj, &vj, &ideal_terms());
    Ideal {
        part: s.zero,
        derived: s.j / tau,
    }
}

// The sum of the residual terms derived in pi as `Pi` says and in tau as `Tau` does.
fn residual_derived<Pi: Derived, Tau: Derived>(pi: f64, tau: f64) -> f64
    ensures { result ≡ total (term Pi.order Tau.order pi (equation.vj tau)) equation.residual_terms }
{
    poly_powi_steps::<Pi, Tau>(&Powers::of(pi), &Powers::of(tau - 0.5), &residual_terms())
}

// The residual part's first derivative in pi.
pub fn gammar_pi_reg2(pi: f64, tau: f64) -> f64
    ensures { result ≡ gammar_pi equation pi tau }
{
    residual_derived::<Once, Not>(pi, tau)
}

// The residual part's first derivative in tau.
pub fn gammar_tau_reg2(pi: f64, tau: f64) -> f64
    ensures { result ≡ gammar_tau equation pi tau }
{
    residual_derived::<Not, Once>(pi, tau)
}

// The residual part's second derivative in tau.
pub fn gammar_tautau_reg2(pi: f64, tau: f64) -> f64
    ensures { result ≡ gammar_tautau equation pi tau }
{
    residual_derived::<Not, Twice>(pi, tau)
}

// The residual part's derivatives that share their powers, those that are read.
fn residual_shared<R: Read>(pi: f64, tau: f64) -> Sums
    ensures { result ≡ R.only (residual equation pi tau) }
{
    R::only(polys_powi_steps::<R>(&Powers::of(pi), &Powers::of(tau - 0.5), &residual_terms()))
}

// The residual part itself and its derivative in tau, which share their powers.
pub fn polys_0_j_powi_reg2(pi: f64, tau: f64) -> Sums
    ensures { result ≡ only_0_j (residual equation pi tau) }
{
    residual_shared::<ZeroJ>(pi, tau)
}

// The residual part's first derivatives in pi and in tau, which share their powers.
pub fn polys_i_j_powi_reg2(pi: f64, tau: f64) -> Sums
    ensures { result ≡ only_i_j (residual equation pi tau) }
{
    residual_shared::<IJ>(pi, tau)
}

// The residual part's derivatives in pi, twice in pi, in both and twice in tau, which share their powers.
pub fn polys_i_ii_ij_jj_powi_reg2(pi: f64, tau: f64) -> Sums
    ensures { result ≡ only_i_ii_ij_jj (residual equation pi tau) }
{
    residual_shared::<IIiIjJj>(pi, tau)
}
