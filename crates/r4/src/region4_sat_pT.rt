// Saturation pressure and temperature, in the Rust's order of operations.
ghost use Rattle.std.specs.Prelude.{◌≡◌, true, false, Ok};
ghost use Rattle.std.specs.Float.Ieee.{lt};
ghost use Rattle.exact.specs.Operations.{◌⊖◌, ◌⊗◌};
ghost use Rattle.r4.specs.Saturation.{four, A, B, C, saturation_pressure, saturation_temperature, saturation_pressure_at, saturation_temperature_at};

use common::boundaries::{Range, checked};
use common::cause::Cause;
use float::power::powi;
use float::root::{fourth_root, sqrt};

// Table 34 of the release
const N1: f64 = 0.11670521452767e4;

const N2: f64 = -0.72421316703206e6;

const N3: f64 = -0.17073846940092e2;

const N4: f64 = 0.12020824702470e5;

const N5: f64 = -0.32325550322333e7;

const N6: f64 = 0.14915108613530e2;

const N7: f64 = -0.48232657361591e4;

const N8: f64 = 0.40511340542057e6;

const N9: f64 = -0.23855557567849e0;

const N10: f64 = 0.65017534844798e3;

// The coefficients of Eq. (30) at a temperature.
#[derive(Clone, Copy)]
struct Quadratic {
    aco: f64,
    bco: f64,
    cco: f64,
}

impl Quadratic {
    fn at(T: f64) -> Quadratic
        ensures { result ≡ record { aco = A T; bco = B T; cco = C T } }
    {
        let del = T + N9 / (T - N10);
        Quadratic {
            aco: del * (del + N1) + N2,
            bco: del * (N3 * del + N4) + N5,
            cco: del * (N6 * del + N7) + N8,
        }
    }

    // What the root is taken of.
    fn square(self) -> f64
        ensures { result ≡ self.bco ⊗ self.bco ⊖ four ⊗ self.aco ⊗ self.cco }
    {
        self.bco * self.bco - 4.0 * self.aco * self.cco
    }
}

// The saturation pressure by the formula alone.
pub fn p_saturation_formula(T: f64) -> f64
    ensures { result ≡ saturation_pressure T }
{
    let line = Quadratic::at(T);
    let a = 2.0 * line.cco / (-line.bco + sqrt(line.square()));
    powi(a, 4)
}

// A first guess at the root in the saturation pressure from 273.15 to 623.15 K, up to 0.21 parts in 100 too small. Only the time rests on it: it is tested before it is used.
fn root_guess(T: f64) -> f64 {
    4101246.0 + T * (-25228.99 + T * (80.67733 + T * (-0.1054326 + T * 4.375641e-5)))
}

// Far above anything in the formula; no sum or quotient of what lies below it overflows.
const LARGE: f64 = 1.0e30;

// Whether p is surely no lower than the saturation pressure, by a bound that needs no exact root: a root that is too small makes the pressure too high. It says no near the line, which is
// then to be asked itself, and where the guess is not too small. The tests with LARGE, 0, 1 and 1000 keep every operation in the range of doubles, and held at every temperature that was tried (docs/SPEED.md).
pub fn surely_above(p: f64, T: f64) -> bool
    ensures { result ≡ true → (saturation_pressure_at T ≡ Ok (saturation_pressure T)) × (lt p (saturation_pressure T) ≡ false) }
{
    let line = Quadratic::at(T);
    let square = line.square();
    let root = root_guess(T);
    let low = root * root;
    let top = 2.0 * line.cco;
    let bottom = -line.bco + root;
    let bound = top / bottom;
    // The last test stands apart: a chain of `&&` that is a result hands its tests to the proof one inside the other, and one that is a condition hands them side by side.
    if Range::T4.contains(T)
        && 0.0 < low
        && low < square
        && square < LARGE
        && 1.0 < bottom
        && bottom < LARGE
        && 0.0 < top
        && top < LARGE
        && bound < 1000.0
    {
        powi(bound, 4) <= p
    } else {
        false
    }
}

// The saturation temperature by the formula alone.
pub fn T_saturation_formula(p: f64) -> f64
    ensures { result ≡ saturation_temperature p }
{
    let bet = fourth_root(p);
    let eco = bet * (bet + N3) + N6;
    let fco = bet * (N1 * bet + N4) + N7;
    let gco = bet * (N2 * bet + N5) + N8;
    let dco = 2.0 * gco / (-fco - sqrt(fco * fco - 4.0 * eco * gco));
    let temp = (N10 + dco) * (N10 + dco) - 4.0 * (N9 + N10 * dco);
    0.5 * (N10 + dco - sqrt(temp))
}

// The saturation pressure in its range, else 1, 2 or 9.
pub fn p_saturation(T: f64) -> Result<f64, Cause>
    ensures { result ≡ saturation_pressure_at T }
{
    checked(Range::T4, T, p_saturation_formula(T))
}

// The saturation temperature in its range, else 1, 3 or 9.
pub fn T_saturation(p: f64) -> Result<f64, Cause>
    ensures { result ≡ saturation_temperature_at p }
{
    checked(Range::P4, p, T_saturation_formula(p))
}
