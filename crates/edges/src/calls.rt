// The vessel's calls at the edges: document 01's readings 10 to 16 but for 14, and the neighbours that a careful reader would try.
use pairs::row::Region::{Five, One, Two};
use r1::region1_pT::{pT2s_reg1, pT2v_reg1};
use r2::region2_pT::{pT2h_reg2, pT2v_reg2};
use r4::region4_sat_pT::p_saturation_formula;
use r5::region5_pT::{pT2h_reg5, pT2s_reg5, pT2v_reg5};
use show::{Columns, answer};
use std::io;
use vessel::pair::{PvRegion, STEP_LIMIT, Th2p, Ts2p, Tv2p, pv2T};
use vessel::property::Property::{Enthalpy, Entropy, Volume};
use vessel::property::pT;
use vessel::saturation::{
    B23_pressure, B23_temperature, saturation_pressure, saturation_temperature,
};

// Readings 10 to 12.
pub fn readings10to12(rt: &impl Print) -> io::Result<()> {
    answer(
        rt,
        "10: region 2, p = 0, T = 300",
        pT(Two, Volume, 0.0, 300.0),
    )?;
    answer(rt, "11: p = 0, T NaN", pT(Two, Volume, 0.0, f64::NAN))?;
    answer(
        rt,
        "12: region 1, T = 623.15",
        pT(One, Volume, 100.0, 623.15),
    )?;
    answer(
        rt,
        "12: region 1, the double above 623.15",
        pT(One, Volume, 100.0, 623.1500000000001),
    )?;
    Ok(())
}

// NaN and infinities in the (p,T) rule.
pub fn not_finite(rt: &impl Print) -> io::Result<()> {
    answer(rt, "region 1, p NaN", pT(One, Enthalpy, f64::NAN, 300.0))?;
    answer(
        rt,
        "region 1, p infinite",
        pT(One, Enthalpy, f64::INFINITY, 300.0),
    )?;
    answer(
        rt,
        "region 2, T minus infinity",
        pT(Two, Entropy, 1.0, f64::NEG_INFINITY),
    )?;
    Ok(())
}

// -0 and the least double in the (p,T) rule.
pub fn least(rt: &impl Print) -> io::Result<()> {
    answer(rt, "region 1, p = -0", pT(One, Volume, -0.0, 300.0))?;
    answer(
        rt,
        "region 2, p the least double",
        pT(Two, Volume, 5.0e-324, 300.0),
    )?;
    answer(
        rt,
        "region 2, T the least double",
        pT(Two, Volume, 0.001, 5.0e-324),
    )?;
    Ok(())
}

// The saturation line where there is none.
pub fn saturation(rt: &impl Print) -> io::Result<()> {
    answer(
        rt,
        "saturation pressure at NaN",
        saturation_pressure(f64::NAN),
    )?;
    answer(
        rt,
        "saturation temperature at infinity",
        saturation_temperature(f64::INFINITY),
    )?;
    answer(
        rt,
        "saturation temperature at -0",
        saturation_temperature(-0.0),
    )?;
    Ok(())
}

// B23 where there is none.
pub fn b23(rt: &impl Print) -> io::Result<()> {
    answer(rt, "B23 pressure at NaN", B23_pressure(f64::NAN))?;
    answer(
        rt,
        "B23 temperature at minus infinity",
        B23_temperature(f64::NEG_INFINITY),
    )?;
    Ok(())
}

// Readings 13, 15 and 16.
pub fn readings13to16(rt: &impl Print) -> io::Result<()> {
    answer(
        rt,
        "13: region 1, p = 100, v at (100, 273.15)",
        pv2T(PvRegion::One, 100.0, pT2v_reg1(100.0, 273.15), STEP_LIMIT),
    )?;
    answer(
        rt,
        "15: bisection, limit 0",
        pv2T(PvRegion::One, 3.0, pT2v_reg1(3.0, 300.0), 0),
    )?;
    answer(
        rt,
        "15: Brent, limit 0",
        Tv2p(One, 300.0, pT2v_reg1(3.0, 300.0), 0),
    )?;
    reading16(rt)
}

// Reading 16.
fn reading16(rt: &impl Print) -> io::Result<()> {
    answer(
        rt,
        "16: region 1, 1 MPa, v between the least and that at 273.15 K",
        pv2T(
            PvRegion::One,
            1.0,
            0.5 * (pT2v_reg1(1.0, 273.15) + pT2v_reg1(1.0, 277.0)),
            STEP_LIMIT,
        ),
    )?;
    answer(
        rt,
        "16: the ends, 1 MPa, v at 273.15 K",
        pv2T(PvRegion::One, 1.0, pT2v_reg1(1.0, 273.15), STEP_LIMIT),
    )?;
    Ok(())
}

// The step limits next to 0, to the vessels' 20,000 and to the largest one, 65,535; and those next to the least that is enough, where 8 turns into an answer that stays: the steps of a bisection, one more
// than the steps of Brent's search, and any for an exact end.
pub fn step_limits(rt: &impl Print) -> io::Result<()> {
    for limit in [1, 2, 20, 21, 22, 20000, 20001, 65535, 65536, 4294967295] {
        let bisection = pv2T(PvRegion::One, 3.0, pT2v_reg1(3.0, 300.0), limit);
        println!(rt; "bisection, limit {limit}: {}", Columns(bisection))?;
    }
    for limit in [1, 2, 10, 11, 20, 20000, 20001, 65535, 65536, 4294967295] {
        let brent = Th2p(Two, 700.0, pT2h_reg2(30.0, 700.0), limit);
        println!(rt; "Brent, limit {limit}: {}", Columns(brent))?;
    }
    for limit in [0, 20000, 65535, 65536] {
        let exact_end = pv2T(PvRegion::One, 1.0, pT2v_reg1(1.0, 273.15), limit);
        println!(rt; "exact end, limit {limit}: {}", Columns(exact_end))?;
    }
    let before_nan = pv2T(PvRegion::One, f64::NAN, f64::NAN, 65536);
    answer(rt, "limit 65536 before NaN", before_nan)
}

// The order of refusals, and -0 and the least double as v.
pub fn order(rt: &impl Print) -> io::Result<()> {
    answer(
        rt,
        "NaN before p out of range",
        pv2T(PvRegion::One, 0.0, f64::NAN, STEP_LIMIT),
    )?;
    answer(
        rt,
        "p out of range before v",
        pv2T(PvRegion::One, 0.0, -1.0, STEP_LIMIT),
    )?;
    answer(
        rt,
        "T out of range before v",
        Tv2p(One, 700.0, -1.0, STEP_LIMIT),
    )?;
    answer(rt, "v = 0", pv2T(PvRegion::Two, 1.0, 0.0, STEP_LIMIT))?;
    answer(rt, "v = -0", Tv2p(Two, 500.0, -0.0, STEP_LIMIT))?;
    answer(
        rt,
        "v the least double",
        Tv2p(Two, 500.0, 5.0e-324, STEP_LIMIT),
    )?;
    Ok(())
}

// NaN, infinities and the largest double in each place of a search.
pub fn places(rt: &impl Print) -> io::Result<()> {
    answer(
        rt,
        "v infinite",
        Tv2p(Two, 500.0, f64::INFINITY, STEP_LIMIT),
    )?;
    answer(rt, "T infinite", Ts2p(One, f64::INFINITY, 1.0, STEP_LIMIT))?;
    answer(rt, "h NaN", Th2p(Two, 500.0, f64::NAN, STEP_LIMIT))?;
    answer(
        rt,
        "s minus infinity",
        Ts2p(Two, 500.0, f64::NEG_INFINITY, STEP_LIMIT),
    )?;
    answer(
        rt,
        "h the largest double",
        Th2p(One, 500.0, 1.7976931348623157e+308, STEP_LIMIT),
    )?;
    Ok(())
}

// Found pressures outside.
pub fn outside(rt: &impl Print) -> io::Result<()> {
    answer(
        rt,
        "region 2 (T,h), a pressure outside",
        Th2p(Two, 300.0, pT2h_reg2(0.1, 300.0), STEP_LIMIT),
    )?;
    answer(
        rt,
        "region 2 (T,v), a pressure outside",
        Tv2p(Two, 500.0, pT2v_reg2(3.0, 500.0), STEP_LIMIT),
    )?;
    Ok(())
}

// Found values inside, in region 2 and then in region 1.
pub fn inside(rt: &impl Print) -> io::Result<()> {
    answer(
        rt,
        "region 2 (T,h), a pressure inside",
        Th2p(Two, 600.0, pT2h_reg2(1.0, 600.0), STEP_LIMIT),
    )?;
    answer(
        rt,
        "region 2 (T,v), a pressure of a low vacuum",
        Tv2p(Two, 280.0, pT2v_reg2(1.0e-5, 280.0), STEP_LIMIT),
    )?;
    answer(
        rt,
        "region 2 (p,v), a temperature",
        pv2T(PvRegion::Two, 1.0, pT2v_reg2(1.0, 500.0), STEP_LIMIT),
    )?;
    inside_1(rt)
}

// Found values inside, in region 1.
fn inside_1(rt: &impl Print) -> io::Result<()> {
    answer(
        rt,
        "region 1 (T,s), a pressure",
        Ts2p(One, 450.0, pT2s_reg1(20.0, 450.0), STEP_LIMIT),
    )?;
    answer(
        rt,
        "region 1 (T,v), on the saturation line",
        Tv2p(
            One,
            500.0,
            pT2v_reg1(p_saturation_formula(500.0), 500.0),
            STEP_LIMIT,
        ),
    )?;
    Ok(())
}

// Region 5: what is not finite, no volume, no step, and a pressure found by (T,v).
pub fn region5(rt: &impl Print) -> io::Result<()> {
    answer(rt, "region 5, p NaN", pT(Five, Volume, f64::NAN, 1500.0))?;
    answer(
        rt,
        "region 5 (T,v), v = 0",
        Tv2p(Five, 1500.0, 0.0, STEP_LIMIT),
    )?;
    answer(
        rt,
        "region 5 (T,v), limit 0",
        Tv2p(Five, 1500.0, pT2v_reg5(0.5, 1500.0), 0),
    )?;
    answer(
        rt,
        "region 5 (T,v), a pressure",
        Tv2p(Five, 1500.0, pT2v_reg5(0.5, 1500.0), STEP_LIMIT),
    )?;
    Ok(())
}

// Region 5: a pressure found by the other pairs, the upper end, and a target that both ends lie on one side of.
pub fn region5_h_s(rt: &impl Print) -> io::Result<()> {
    answer(
        rt,
        "region 5 (T,h), a pressure",
        Th2p(Five, 1500.0, pT2h_reg5(30.0, 1500.0), STEP_LIMIT),
    )?;
    answer(
        rt,
        "region 5 (T,s), a pressure of a low vacuum",
        Ts2p(Five, 2000.0, pT2s_reg5(1.0e-5, 2000.0), STEP_LIMIT),
    )?;
    answer(
        rt,
        "region 5 (T,v), the upper end",
        Tv2p(Five, 2273.15, pT2v_reg5(50.0, 2273.15), STEP_LIMIT),
    )?;
    answer(
        rt,
        "region 5 (T,h), an enthalpy of another temperature",
        Th2p(Five, 1500.0, pT2h_reg5(30.0, 2000.0), STEP_LIMIT),
    )?;
    Ok(())
}
