// The properties from the derivatives of the two parts of the Gibbs free energy, as regions 2 and 5 have them: Tables 12 and 39 of the release, each said once.
#![tactic(auto)]

ghost use Rattle.std.specs.Prelude.{◌≡◌};
ghost use Rattle.gibbs.specs.Gibbs.{v as v_of, u as u_of, s as s_of, h as h_of, cp as cp_of, cv as cv_of, w as w_of};

use common::constant::RGAS_WATER;
use float::root::sqrt;
use polynomial::Sums;

// The specific volume in m^3/kg.
pub fn v(p: f64, T: f64, gammar_pi: f64) -> f64
    ensures { result ≡ v_of p T gammar_pi }
{
    0.001 * RGAS_WATER * T * (1.0 / p + gammar_pi)
}

// The specific internal energy in kJ/kg. The residual part's derivatives, here and below, are those that share their powers.
pub fn u(p: f64, T: f64, tau: f64, gamma0_tau: f64, gammar: Sums) -> f64
    ensures { result ≡ u_of p T tau gamma0_tau gammar }
{
    RGAS_WATER * T * (tau * (gamma0_tau + gammar.j) - p * (1.0 / p + gammar.i))
}

// The specific entropy in kJ/(kg K).
pub fn s(tau: f64, gamma0: f64, gamma0_tau: f64, gammar: Sums) -> f64
    ensures { result ≡ s_of tau gamma0 gamma0_tau gammar }
{
    RGAS_WATER * (tau * (gamma0_tau + gammar.j) - (gamma0 + gammar.zero))
}

// The specific enthalpy in kJ/kg.
pub fn h(tstar: f64, gamma0_tau: f64, gammar_tau: f64) -> f64
    ensures { result ≡ h_of tstar gamma0_tau gammar_tau }
{
    RGAS_WATER * tstar * (gamma0_tau + gammar_tau)
}

// The specific isobaric heat capacity in kJ/(kg K).
pub fn cp(tau: f64, gamma0_tautau: f64, gammar_tautau: f64) -> f64
    ensures { result ≡ cp_of tau gamma0_tautau gammar_tautau }
{
    -RGAS_WATER * tau * tau * (gamma0_tautau + gammar_tautau)
}

// The specific isochoric heat capacity in kJ/(kg K).
pub fn cv(p: f64, tau: f64, gamma0_tautau: f64, gammar: Sums) -> f64
    ensures { result ≡ cv_of p tau gamma0_tautau gammar }
{
    let a = 1.0 + p * (gammar.i - tau * gammar.ij);
    let b = a * a / (1.0 - p * p * gammar.ii);
    let c = -tau * tau * (gamma0_tautau + gammar.jj);
    RGAS_WATER * (c - b)
}

// The speed of sound in m/s.
pub fn w(p: f64, T: f64, tau: f64, gamma0_tautau: f64, gammar: Sums) -> f64
    ensures { result ≡ w_of p T tau gamma0_tautau gammar }
{
    let a = p * gammar.i;
    let r1 = 1000.0 * RGAS_WATER * T * (1.0 + 2.0 * p * gammar.i + a * a);
    let b = 1.0 + p * gammar.i - tau * p * gammar.ij;
    let r2 = 1.0 - p * p * gammar.ii + b * b / (tau * tau * (gamma0_tautau + gammar.jj));
    sqrt(r1 / r2)
}
