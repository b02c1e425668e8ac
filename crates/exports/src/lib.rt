// The float helpers and the equations under plain names, for compare/ to link: a static library of nothing but calls, each a symbol of its own.
#![tactic(auto)]

ghost use Rattle.std.specs.Prelude.{◌≡◌};
ghost use Rattle.std.specs.Float.Ieee.Scale.{finite};
ghost use Rattle.float.specs.Sign.{magnitude, smaller, sign_taken, same_sign};
ghost use Rattle.float.specs.Power.{whole_power};
ghost use Rattle.float.specs.Root.{square_root, fourth_root};
ghost use Rattle.float.specs.Log.{logarithm};
ghost use Rattle.common.specs.Boundaries.{B23_p, B23_T};
ghost use Rattle.r1.specs.Region1 as region1;
ghost use Rattle.r2.specs.Region2 as region2;
ghost use Rattle.r5.specs.Region5 as region5;
ghost use Rattle.r4.specs.Saturation.{saturation_pressure, saturation_temperature};

#[unsafe(no_mangle)]
pub extern "C" fn float_abs(x: f64) -> f64
    ensures { result ≡ magnitude x }
{
    float::sign::abs(x)
}

#[unsafe(no_mangle)]
pub extern "C" fn float_min(x: f64, y: f64) -> f64
    ensures { result ≡ smaller x y }
{
    float::sign::min(x, y)
}

#[unsafe(no_mangle)]
pub extern "C" fn float_copysign(x: f64, y: f64) -> f64
    ensures { result ≡ sign_taken x y }
{
    float::sign::copysign(x, y)
}

#[unsafe(no_mangle)]
pub extern "C" fn float_same_sign(a: f64, b: f64) -> bool
    ensures { result ≡ same_sign a b }
{
    float::sign::same_sign(a, b)
}

#[unsafe(no_mangle)]
pub extern "C" fn float_is_finite(x: f64) -> bool
    ensures { result ≡ finite x }
{
    float::sign::is_finite(x)
}

#[unsafe(no_mangle)]
pub extern "C" fn float_powi(x: f64, n: i32) -> f64
    ensures { result ≡ whole_power x n }
{
    float::power::powi(x, n)
}

#[unsafe(no_mangle)]
pub extern "C" fn float_sqrt(x: f64) -> f64
    ensures { result ≡ square_root x }
{
    float::root::sqrt(x)
}

#[unsafe(no_mangle)]
pub extern "C" fn float_fourth_root(x: f64) -> f64
    ensures { result ≡ fourth_root x }
{
    float::root::fourth_root(x)
}

#[unsafe(no_mangle)]
pub extern "C" fn float_ln(x: f64) -> f64
    ensures { result ≡ logarithm x }
{
    float::log::ln(x)
}

#[unsafe(no_mangle)]
pub extern "C" fn region1_v(p: f64, T: f64) -> f64
    ensures { result ≡ region1.pT2v p T }
{
    r1::region1_pT::pT2v_reg1(p, T)
}

#[unsafe(no_mangle)]
pub extern "C" fn region1_u(p: f64, T: f64) -> f64
    ensures { result ≡ region1.pT2u p T }
{
    r1::region1_pT::pT2u_reg1(p, T)
}

#[unsafe(no_mangle)]
pub extern "C" fn region1_s(p: f64, T: f64) -> f64
    ensures { result ≡ region1.pT2s p T }
{
    r1::region1_pT::pT2s_reg1(p, T)
}

#[unsafe(no_mangle)]
pub extern "C" fn region1_h(p: f64, T: f64) -> f64
    ensures { result ≡ region1.pT2h p T }
{
    r1::region1_pT::pT2h_reg1(p, T)
}

#[unsafe(no_mangle)]
pub extern "C" fn region1_cp(p: f64, T: f64) -> f64
    ensures { result ≡ region1.pT2cp p T }
{
    r1::region1_pT::pT2cp_reg1(p, T)
}

#[unsafe(no_mangle)]
pub extern "C" fn region1_cv(p: f64, T: f64) -> f64
    ensures { result ≡ region1.pT2cv p T }
{
    r1::region1_pT::pT2cv_reg1(p, T)
}

#[unsafe(no_mangle)]
pub extern "C" fn region1_w(p: f64, T: f64) -> f64
    ensures { result ≡ region1.pT2w p T }
{
    r1::region1_pT::pT2w_reg1(p, T)
}

#[unsafe(no_mangle)]
pub extern "C" fn region2_v(p: f64, T: f64) -> f64
    ensures { result ≡ region2.pT2v p T }
{
    r2::region2_pT::pT2v_reg2(p, T)
}

#[unsafe(no_mangle)]
pub extern "C" fn region2_u(p: f64, T: f64) -> f64
    ensures { result ≡ region2.pT2u p T }
{
    r2::region2_pT::pT2u_reg2(p, T)
}

#[unsafe(no_mangle)]
pub extern "C" fn region2_s(p: f64, T: f64) -> f64
    ensures { result ≡ region2.pT2s p T }
{
    r2::region2_pT::pT2s_reg2(p, T)
}

#[unsafe(no_mangle)]
pub extern "C" fn region2_h(p: f64, T: f64) -> f64
    ensures { result ≡ region2.pT2h p T }
{
    r2::region2_pT::pT2h_reg2(p, T)
}

#[unsafe(no_mangle)]
pub extern "C" fn region2_cp(p: f64, T: f64) -> f64
    ensures { result ≡ region2.pT2cp p T }
{
    r2::region2_pT::pT2cp_reg2(p, T)
}

#[unsafe(no_mangle)]
pub extern "C" fn region2_cv(p: f64, T: f64) -> f64
    ensures { result ≡ region2.pT2cv p T }
{
    r2::region2_pT::pT2cv_reg2(p, T)
}

#[unsafe(no_mangle)]
pub extern "C" fn region2_w(p: f64, T: f64) -> f64
    ensures { result ≡ region2.pT2w p T }
{
    r2::region2_pT::pT2w_reg2(p, T)
}

#[unsafe(no_mangle)]
pub extern "C" fn region5_v(p: f64, T: f64) -> f64
    ensures { result ≡ region5.pT2v p T }
{
    r5::region5_pT::pT2v_reg5(p, T)
}

#[unsafe(no_mangle)]
pub extern "C" fn region5_u(p: f64, T: f64) -> f64
    ensures { result ≡ region5.pT2u p T }
{
    r5::region5_pT::pT2u_reg5(p, T)
}

#[unsafe(no_mangle)]
pub extern "C" fn region5_s(p: f64, T: f64) -> f64
    ensures { result ≡ region5.pT2s p T }
{
    r5::region5_pT::pT2s_reg5(p, T)
}

#[unsafe(no_mangle)]
pub extern "C" fn region5_h(p: f64, T: f64) -> f64
    ensures { result ≡ region5.pT2h p T }
{
    r5::region5_pT::pT2h_reg5(p, T)
}

#[unsafe(no_mangle)]
pub extern "C" fn region5_cp(p: f64, T: f64) -> f64
    ensures { result ≡ region5.pT2cp p T }
{
    r5::region5_pT::pT2cp_reg5(p, T)
}

#[unsafe(no_mangle)]
pub extern "C" fn region5_cv(p: f64, T: f64) -> f64
    ensures { result ≡ region5.pT2cv p T }
{
    r5::region5_pT::pT2cv_reg5(p, T)
}

#[unsafe(no_mangle)]
pub extern "C" fn region5_w(p: f64, T: f64) -> f64
    ensures { result ≡ region5.pT2w p T }
{
    r5::region5_pT::pT2w_reg5(p, T)
}

#[unsafe(no_mangle)]
pub extern "C" fn saturation_pressure(T: f64) -> f64
    ensures { result ≡ saturation_pressure T }
{
    r4::region4_sat_pT::p_saturation_formula(T)
}

#[unsafe(no_mangle)]
pub extern "C" fn saturation_temperature(p: f64) -> f64
    ensures { result ≡ saturation_temperature p }
{
    r4::region4_sat_pT::T_saturation_formula(p)
}

#[unsafe(no_mangle)]
pub extern "C" fn b23_pressure(T: f64) -> f64
    ensures { result ≡ B23_p T }
{
    common::boundaries::B23_T2p(T)
}

#[unsafe(no_mangle)]
pub extern "C" fn b23_temperature(p: f64) -> f64
    ensures { result ≡ B23_T p }
{
    common::boundaries::B23_p2T(p)
}
