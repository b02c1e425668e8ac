// The properties of region 5 by (p,T), with no check of the range. The reduced pressure is p itself, in MPa. Why region 2 has its own stands there.
ghost use Rattle.std.specs.Prelude.{◌≡◌};
ghost use Rattle.r5.specs.Region5.{pT2v, pT2u, pT2s, pT2h, pT2cp, pT2cv, pT2w};

use crate::region5_gfe::{ideal_reg5, residual_reg5};
use float::log::ln;
use gibbs::{cp, cv, h, s, u, v, w};
use polynomial::divided;
use polynomial::steps::{Alone, AloneShared, Direct, IIiIjJj, IJ, Not, Once, Shared, Twice, ZeroJ};

const R5TSTAR: f64 = 1000.0;

// The specific volume in m^3/kg.
pub fn pT2v_reg5(p: f64, T: f64) -> f64
    ensures { result ≡ pT2v p T }
{
    let tau = R5TSTAR / T;
    let residual = residual_reg5::<Direct<Once, Not>>(p, tau);
    v(p, T, residual.zero)
}

// The specific internal energy in kJ/kg.
pub fn pT2u_reg5(p: f64, T: f64) -> f64
    ensures { result ≡ pT2u p T }
{
    let tau = R5TSTAR / T;
    let ideal = ideal_reg5::<Alone<Once>>(0.0, tau);
    let residual = residual_reg5::<Shared<IJ>>(p, tau);
    u(p, T, tau, ideal.zero, divided(residual, p, tau))
}

// The specific entropy in kJ/(kg K).
pub fn pT2s_reg5(p: f64, T: f64) -> f64
    ensures { result ≡ pT2s p T }
{
    let tau = R5TSTAR / T;
    let ideal = ideal_reg5::<AloneShared>(ln(p), tau);
    let residual = residual_reg5::<Shared<ZeroJ>>(p, tau);
    s(tau, ideal.zero, ideal.j / tau, divided(residual, p, tau))
}

// The specific enthalpy in kJ/kg.
pub fn pT2h_reg5(p: f64, T: f64) -> f64
    ensures { result ≡ pT2h p T }
{
    let tau = R5TSTAR / T;
    let ideal = ideal_reg5::<Alone<Once>>(0.0, tau);
    let residual = residual_reg5::<Direct<Not, Once>>(p, tau);
    h(R5TSTAR, ideal.zero, residual.zero)
}

// The specific isobaric heat capacity in kJ/(kg K).
pub fn pT2cp_reg5(p: f64, T: f64) -> f64
    ensures { result ≡ pT2cp p T }
{
    let tau = R5TSTAR / T;
    let ideal = ideal_reg5::<Alone<Twice>>(0.0, tau);
    let residual = residual_reg5::<Direct<Not, Twice>>(p, tau);
    cp(tau, ideal.zero, residual.zero)
}

// The specific isochoric heat capacity in kJ/(kg K).
pub fn pT2cv_reg5(p: f64, T: f64) -> f64
    ensures { result ≡ pT2cv p T }
{
    let tau = R5TSTAR / T;
    let ideal = ideal_reg5::<Alone<Twice>>(0.0, tau);
    let residual = residual_reg5::<Shared<IIiIjJj>>(p, tau);
    cv(p, tau, ideal.zero, divided(residual, p, tau))
}

// The speed of sound in m/s.
pub fn pT2w_reg5(p: f64, T: f64) -> f64
    ensures { result ≡ pT2w p T }
{
    let tau = R5TSTAR / T;
    let ideal = ideal_reg5::<Alone<Twice>>(0.0, tau);
    let residual = residual_reg5::<Shared<IIiIjJj>>(p, tau);
    w(p, T, tau, ideal.zero, divided(residual, p, tau))
}
