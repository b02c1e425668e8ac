// The dimensionless Gibbs free energy of region 1: its table and its derivatives.
ghost use Rattle.std.specs.Prelude.{◌≡◌};
ghost use Rattle.r1.specs.Region1.{vi, vj, terms as terms_of, gamma_pi, gamma_tau, gamma_tautau, derivatives, turned as turned_of};
ghost use Rattle.polynomial.specs.Terms.{term, total};
ghost use Rattle.polynomial.specs.Kinds.{only_0_j, only_i_j, only_i_ii_ij_jj};

use polynomial::powers::Powers;
use polynomial::steps::{Derived, IIiIjJj, IJ, Not, Once, Read, Twice, ZeroJ};
use polynomial::table::Table;
use polynomial::{Sums, poly_powi_steps, polys_powi_steps};

// Table 2 of the release, by columns.
const I: [i32; 34] = [
    0, 0, 0, 0, 0, 0, 0, 0, 1, 1, 1, 1, 1, 1, 2, 2, 2, 2, 2, 3, 3, 3, 4, 4, 4, 5, 8, 8, 21, 23, 29,
    30, 31, 32,
];

const J: [i32; 34] = [
    -2, -1, 0, 1, 2, 3, 4, 5, -9, -7, -1, 0, 1, 3, -3, 0, 1, 3, 17, -4, 0, 6, -5, -2, 10, -8, -11,
    -6, -29, -31, -38, -39, -40, -41,
];

const N: [f64; 34] = [
    0.14632971213167e0,
    -0.84548187169114e0,
    -0.37563603672040e1,
    0.33855169168385e1,
    -0.95791963387872e0,
    0.15772038513228e0,
    -0.16616417199501e-1,
    0.81214629983568e-3,
    0.28319080123804e-3,
    -0.60706301565874e-3,
    -0.18990068218419e-1,
    -0.32529748770505e-1,
    -0.21841717175414e-1,
    -0.52838357969930e-4,
    -0.47184321073267e-3,
    -0.30001780793026e-3,
    0.47661393906987e-4,
    -0.44141845330846e-5,
    -0.72694996297594e-15,
    -0.31679644845054e-4,
    -0.28270797985312e-5,
    -0.85205128120103e-9,
    -0.22425281908000e-5,
    -0.65171222895601e-6,
    -0.14341729937924e-12,
    -0.40516996860117e-6,
    -0.12734301741641e-8,
    -0.17424871230634e-9,
    -0.68762131295531e-18,
    0.14478307828521e-19,
    0.26335781662795e-22,
    -0.11947622640071e-22,
    0.18228094581404e-23,
    -0.93537087292458e-25,
];

// The same as a table.
fn terms() -> Table<'static>
    ensures { result ≡ terms_of }
{
    Table {
        is: &I,
        js: &J,
        ns: &N,
    }
}

// The sum of the terms derived in 7.1 - pi as `Pi` says and in tau - 1.222 as `Tau` does.
fn derived<Pi: Derived, Tau: Derived>(pi: f64, tau: f64) -> f64
    ensures { result ≡ total (term Pi.order Tau.order (vi pi) (vj tau)) terms_of }
{
    poly_powi_steps::<Pi, Tau>(&Powers::of(7.1 - pi), &Powers::of(tau - 1.222), &terms())
}

// The first derivative in pi.
pub fn gamma_pi_reg1(pi: f64, tau: f64) -> f64
    ensures { result ≡ gamma_pi pi tau }
{
    -derived::<Once, Not>(pi, tau)
}

// The first derivative in tau.
pub fn gamma_tau_reg1(pi: f64, tau: f64) -> f64
    ensures { result ≡ gamma_tau pi tau }
{
    derived::<Not, Once>(pi, tau)
}

// The second derivative in tau.
pub fn gamma_tautau_reg1(pi: f64, tau: f64) -> f64
    ensures { result ≡ gamma_tautau pi tau }
{
    derived::<Not, Twice>(pi, tau)
}

// As derivatives in pi, which is taken from 7.1: those of odd order change sign.
fn turned(s: Sums) -> Sums
    ensures { result ≡ turned_of s }
{
    Sums {
        i: -s.i,
        ij: -s.ij,
        ..s
    }
}

// The derivatives that share their powers, those that are read.
fn shared<R: Read>(pi: f64, tau: f64) -> Sums
    ensures { result ≡ R.only (derivatives pi tau) }
{
    let s = polys_powi_steps::<R>(&Powers::of(7.1 - pi), &Powers::of(tau - 1.222), &terms());
    R::only(turned(s))
}

// The energy itself and its derivative in tau, which share their powers.
pub fn polys_0_j_powi_reg1(pi: f64, tau: f64) -> Sums
    ensures { result ≡ only_0_j (derivatives pi tau) }
{
    shared::<ZeroJ>(pi, tau)
}

// The first derivatives in pi and in tau, which share their powers.
pub fn polys_i_j_powi_reg1(pi: f64, tau: f64) -> Sums
    ensures { result ≡ only_i_j (derivatives pi tau) }
{
    shared::<IJ>(pi, tau)
}

// The derivatives in pi, twice in pi, in both and twice in tau, which share their powers.
pub fn polys_i_ii_ij_jj_powi_reg1(pi: f64, tau: f64) -> Sums
    ensures { result ≡ only_i_ii_ij_jj (derivatives pi tau) }
{
    shared::<IIiIjJj>(pi, tau)
}
