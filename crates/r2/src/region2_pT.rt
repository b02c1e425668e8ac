// The properties of region 2 by (p,T), with no check of the range. The reduced pressure is p itself, in MPa.
// What regions 2 and 5 share is `gibbs`. One function of a property for both would go past the derivatives of region 2, which the Rust names and docs/PROMISES.md lists, and leave them uncalled.
ghost use Rattle.std.specs.Prelude.{◌≡◌};
ghost use Rattle.r2.specs.Region2.{pT2v, pT2u, pT2s, pT2h, pT2cp, pT2cv, pT2w};

use crate::region2_gfe::{
    gamma0_shared_reg2, gamma0_tau_reg2, gamma0_tautau_reg2, gammar_pi_reg2, gammar_tau_reg2,
    gammar_tautau_reg2, polys_0_j_powi_reg2, polys_i_ii_ij_jj_powi_reg2, polys_i_j_powi_reg2,
};
use gibbs::{cp, cv, h, s, u, v, w};

const R2TSTAR: f64 = 540.0;

// The specific volume in m^3/kg.
pub fn pT2v_reg2(p: f64, T: f64) -> f64
    ensures { result ≡ pT2v p T }
{
    let tau = R2TSTAR / T;
    v(p, T, gammar_pi_reg2(p, tau))
}

// The specific internal energy in kJ/kg.
pub fn pT2u_reg2(p: f64, T: f64) -> f64
    ensures { result ≡ pT2u p T }
{
    let tau = R2TSTAR / T;
    u(p, T, tau, gamma0_tau_reg2(tau), polys_i_j_powi_reg2(p, tau))
}

// The specific entropy in kJ/(kg K).
pub fn pT2s_reg2(p: f64, T: f64) -> f64
    ensures { result ≡ pT2s p T }
{
    let tau = R2TSTAR / T;
    let g = gamma0_shared_reg2(p, tau);
    s(tau, g.part, g.derived, polys_0_j_powi_reg2(p, tau))
}

// The specific enthalpy in kJ/kg.
pub fn pT2h_reg2(p: f64, T: f64) -> f64
    ensures { result ≡ pT2h p T }
{
    let tau = R2TSTAR / T;
    h(R2TSTAR, gamma0_tau_reg2(tau), gammar_tau_reg2(p, tau))
}

// The specific isobaric heat capacity in kJ/(kg K).
pub fn pT2cp_reg2(p: f64, T: f64) -> f64
    ensures { result ≡ pT2cp p T }
{
    let tau = R2TSTAR / T;
    cp(tau, gamma0_tautau_reg2(tau), gammar_tautau_reg2(p, tau))
}

// The specific isochoric heat capacity in kJ/(kg K).
pub fn pT2cv_reg2(p: f64, T: f64) -> f64
    ensures { result ≡ pT2cv p T }
{
    let tau = R2TSTAR / T;
    let r = polys_i_ii_ij_jj_powi_reg2(p, tau);
    cv(p, tau, gamma0_tautau_reg2(tau), r)
}

// The speed of sound in m/s.
pub fn pT2w_reg2(p: f64, T: f64) -> f64
    ensures { result ≡ pT2w p T }
{
    let tau = R2TSTAR / T;
    let r = polys_i_ii_ij_jj_powi_reg2(p, tau);
    w(p, T, tau, gamma0_tautau_reg2(tau), r)
}
