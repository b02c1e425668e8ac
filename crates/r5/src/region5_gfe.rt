// Both parts of the dimensionless Gibbs free energy of region 5: their tables, and the sums over them.
ghost use Rattle.std.specs.Prelude.{◌≡◌};
ghost use Rattle.r5.specs.Region5.{equation};
ghost use Rattle.r5.specs.Parts.{ideal_sums, residual_sums};

use polynomial::powers::Powers;
use polynomial::steps::Step;
use polynomial::table::Table;
use polynomial::{Sums, from, none, tile};

// Table 37 of the release, by columns.
const J0: [i32; 6] = [0, 1, -3, -2, -1, 2];

const N0: [f64; 6] = [
    -0.13179983674201e2,
    0.68540841634434e1,
    -0.24805148933466e-1,
    0.36901534980333e0,
    -0.31161318213925e1,
    -0.32961626538917e0,
];

// The same as a table; the power of vi, which no ideal-gas term has, is given that of vj.
fn ideal_terms() -> Table<'static>
    ensures { result ≡ equation.ideal_terms }
{
    Table {
        is: &J0,
        js: &J0,
        ns: &N0,
    }
}

// Table 38 of the release, by columns.
const I: [i32; 6] = [1, 1, 1, 2, 2, 3];

const J: [i32; 6] = [1, 2, 3, 3, 9, 7];

const N: [f64; 6] = [
    0.15736404855259e-2,
    0.90153761673944e-3,
    -0.50270077677648e-2,
    0.22440037409485e-5,
    -0.41163275453471e-5,
    0.37919454822955e-7,
];

// The same as a table.
fn residual_terms() -> Table<'static>
    ensures { result ≡ equation.residual_terms }
{
    Table {
        is: &I,
        js: &J,
        ns: &N,
    }
}

// The sums over Table 37 whose step is `S`, that of the terms going on from `start`.
pub fn ideal_reg5<S: Step>(start: f64, tau: f64) -> Sums
    ensures { result ≡ ideal_sums S.step start tau }
{
    let vj = Powers::of(tau);
    tile::<S>(from(start), &vj, &vj, &ideal_terms())
}

// The sums over Table 38 whose step is `S`.
pub fn residual_reg5<S: Step>(pi: f64, tau: f64) -> Sums
    ensures { result ≡ residual_sums S.step pi tau }
{
    tile::<S>(none(), &Powers::of(pi), &Powers::of(tau), &residual_terms())
}
