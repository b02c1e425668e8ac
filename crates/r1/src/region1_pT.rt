// The properties of region 1 by (p,T), with no check of the range.
ghost use Rattle.std.specs.Prelude.{◌≡◌};
ghost use Rattle.r1.specs.Region1.{pT2v, pT2u, pT2s, pT2h, pT2cp, pT2cv, pT2w};

use crate::region1_gfe::{
    gamma_pi_reg1, gamma_tau_reg1, gamma_tautau_reg1, polys_0_j_powi_reg1,
    polys_i_ii_ij_jj_powi_reg1, polys_i_j_powi_reg1,
};
use common::constant::RGAS_WATER;
use float::root::sqrt;

const R1PSTAR: f64 = 16.53;

const R1TSTAR: f64 = 1386.0;

// The specific volume in m^3/kg.
pub fn pT2v_reg1(p: f64, T: f64) -> f64
    ensures { result ≡ pT2v p T }
{
    let tau = R1TSTAR / T;
    let pi = p / R1PSTAR;
    0.001 * RGAS_WATER * T * pi * gamma_pi_reg1(pi, tau) / p
}

// The specific internal energy in kJ/kg.
pub fn pT2u_reg1(p: f64, T: f64) -> f64
    ensures { result ≡ pT2u p T }
{
    let pi = p / R1PSTAR;
    let tau = R1TSTAR / T;
    let d = polys_i_j_powi_reg1(pi, tau);
    RGAS_WATER * T * (tau * d.j - pi * d.i)
}

// The specific entropy in kJ/(kg K).
pub fn pT2s_reg1(p: f64, T: f64) -> f64
    ensures { result ≡ pT2s p T }
{
    let tau = R1TSTAR / T;
    let pi = p / R1PSTAR;
    let d = polys_0_j_powi_reg1(pi, tau);
    RGAS_WATER * (tau * d.j - d.zero)
}

// The specific enthalpy in kJ/kg.
pub fn pT2h_reg1(p: f64, T: f64) -> f64
    ensures { result ≡ pT2h p T }
{
    let tau = R1TSTAR / T;
    let pi = p / R1PSTAR;
    RGAS_WATER * T * tau * gamma_tau_reg1(pi, tau)
}

// The specific isobaric heat capacity in kJ/(kg K).
pub fn pT2cp_reg1(p: f64, T: f64) -> f64
    ensures { result ≡ pT2cp p T }
{
    let tau = R1TSTAR / T;
    let pi = p / R1PSTAR;
    -RGAS_WATER * tau * tau * gamma_tautau_reg1(pi, tau)
}

// The specific isochoric heat capacity in kJ/(kg K).
pub fn pT2cv_reg1(p: f64, T: f64) -> f64
    ensures { result ≡ pT2cv p T }
{
    let tau = R1TSTAR / T;
    let pi = p / R1PSTAR;
    let d = polys_i_ii_ij_jj_powi_reg1(pi, tau);
    let a = -tau * tau * d.jj;
    let b = d.i - tau * d.ij;
    RGAS_WATER * (a + b * b / d.ii)
}

// The speed of sound in m/s.
pub fn pT2w_reg1(p: f64, T: f64) -> f64
    ensures { result ≡ pT2w p T }
{
    let tau = R1TSTAR / T;
    let pi = p / R1PSTAR;
    let d = polys_i_ii_ij_jj_powi_reg1(pi, tau);
    let a = d.i - tau * d.ij;
    let b = a * a / (tau * tau * d.jj) - d.ii;
    let temp = 1000.0 * RGAS_WATER * T / b;
    d.i * sqrt(temp)
}
