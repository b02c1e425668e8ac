// The limits of document 01's ranges, each with the doubles next to it.
use pairs::row::Region;
use pairs::row::Region::{Five, One, Two};
use show::Columns;
use std::io;
use vessel::answer::Answer;
use vessel::pair::{PvRegion, STEP_LIMIT, Th2p, Ts2p, Tv2p, pv2T};
use vessel::property::Property::{Cp, Cv, Enthalpy, Entropy, InternalEnergy, SpeedOfSound, Volume};
use vessel::property::{Property, pT};
use vessel::saturation::{
    B23_pressure, B23_temperature, saturation_pressure, saturation_temperature,
};

// The limit between its neighbours, each with what stands behind the limit's name.
fn around(limit: f64) -> [(&'static str, f64); 3] {
    [
        (", the double below", limit.next_down()),
        ("", limit),
        (", the double above", limit.next_up()),
    ]
}

// The loops over it below differ in their call alone: closures were tried in place of them, and each adds four functions to prove.
fn told(rt: &impl Print, limit: &str, side: &str, answer: Answer) -> io::Result<()> {
    println!(rt; "{limit}{side}: {}", Columns(answer))
}

// Limits of T in the (p,T) rule: name, region, property, p and the limit.
fn rule_at_T(rt: &impl Print, rows: &[(&str, Region, Property, f64, f64)]) -> io::Result<()> {
    for (name, region, property, p, limit) in rows {
        for (side, T) in around(*limit) {
            told(rt, name, side, pT(*region, *property, *p, T))?;
        }
    }
    Ok(())
}

// Limits of p in the (p,T) rule: name, region, property, T and the limit.
fn rule_at_p(rt: &impl Print, rows: &[(&str, Region, Property, f64, f64)]) -> io::Result<()> {
    for (name, region, property, T, limit) in rows {
        for (side, p) in around(*limit) {
            told(rt, name, side, pT(*region, *property, p, *T))?;
        }
    }
    Ok(())
}

pub fn rule_T(rt: &impl Print) -> io::Result<()> {
    rule_at_T(
        rt,
        &[
            ("region 1, T = 273.15", One, Volume, 10.0, 273.15),
            ("region 2, T = 273.15", Two, Volume, 0.0001, 273.15),
            (
                "region 2, T = 623.15 at 16.5291642",
                Two,
                Cp,
                16.5291642,
                623.15,
            ),
            ("region 2, T = 863.15 at 100", Two, Cv, 100.0, 863.15),
            ("region 2, T = 1073.15", Two, SpeedOfSound, 1.0, 1073.15),
        ],
    )
}

pub fn rule_p(rt: &impl Print) -> io::Result<()> {
    rule_at_p(
        rt,
        &[
            ("region 1, p = 100", One, InternalEnergy, 300.0, 100.0),
            ("region 2, p = 1.0e-8", Two, Entropy, 300.0, 1.0e-8),
            ("region 2, p = 100 at 900 K", Two, Enthalpy, 900.0, 100.0),
        ],
    )
}

// The (p,T) rule of region 5. At 1073.15 K the named region decides: region 2 there stands above.
pub fn rule_5(rt: &impl Print) -> io::Result<()> {
    rule_at_T(
        rt,
        &[
            ("region 5, T = 1073.15", Five, SpeedOfSound, 1.0, 1073.15),
            ("region 5, T = 2273.15", Five, Cv, 50.0, 2273.15),
        ],
    )?;
    rule_at_p(
        rt,
        &[
            ("region 5, p = 1.0e-8", Five, Entropy, 1500.0, 1.0e-8),
            ("region 5, p = 50", Five, Enthalpy, 1500.0, 50.0),
        ],
    )
}

// Reading 14, and T of the saturation line.
pub fn saturation(rt: &impl Print) -> io::Result<()> {
    let temperature = [
        (
            "14: saturation temperature at 0.000611212677",
            0.000611212677,
        ),
        ("14: saturation temperature at 22.064", 22.064),
    ];
    for (name, limit) in temperature {
        for (side, p) in around(limit) {
            told(rt, name, side, saturation_temperature(p))?;
        }
    }
    let pressure = [
        ("saturation pressure at 273.15", 273.15),
        ("saturation pressure at 647.096", 647.096),
    ];
    for (name, limit) in pressure {
        for (side, T) in around(limit) {
            told(rt, name, side, saturation_pressure(T))?;
        }
    }
    Ok(())
}

// Both inputs of B23.
pub fn b23(rt: &impl Print) -> io::Result<()> {
    let pressure = [
        ("B23 pressure at 623.15", 623.15),
        ("B23 pressure at 863.15", 863.15),
    ];
    for (name, limit) in pressure {
        for (side, T) in around(limit) {
            told(rt, name, side, B23_pressure(T))?;
        }
    }
    let temperature = [
        ("B23 temperature at 16.5291643", 16.5291643),
        ("B23 temperature at 100.0", 100.0),
    ];
    for (name, limit) in temperature {
        for (side, p) in around(limit) {
            told(rt, name, side, B23_temperature(p))?;
        }
    }
    Ok(())
}

// p of (p,v).
pub fn ranges_p(rt: &impl Print) -> io::Result<()> {
    let rows = [
        (
            "region 1 (p,v), p = 0.000611212677444",
            PvRegion::One,
            0.001,
            0.000611212677444,
        ),
        ("region 1 (p,v), p = 100", PvRegion::One, 0.001, 100.0),
        (
            "region 2 (p,v), p = 1.0e-8",
            PvRegion::Two,
            20000000.0,
            1.0e-8,
        ),
    ];
    for (name, region, v, limit) in rows {
        for (side, p) in around(limit) {
            told(rt, name, side, pv2T(region, p, v, STEP_LIMIT))?;
        }
    }
    Ok(())
}

// T of the searches by T, in region 1 and then in region 2.
pub fn ranges_T(rt: &impl Print) -> io::Result<()> {
    for (side, T) in around(273.15) {
        told(
            rt,
            "region 1 (T,v), T = 273.15",
            side,
            Tv2p(One, T, 0.001, STEP_LIMIT),
        )?;
    }
    for (side, T) in around(623.15) {
        told(
            rt,
            "region 1 (T,h), T = 623.15",
            side,
            Th2p(One, T, 1650.0, STEP_LIMIT),
        )?;
    }
    let rows = [
        ("region 2 (T,s), T = 1073.15", 8.0, 1073.15),
        ("region 2 (T,s), T = 863.15", 6.0, 863.15),
        ("region 2 (T,s), T = 623.15", 5.5, 623.15),
    ];
    for (name, s, limit) in rows {
        for (side, T) in around(limit) {
            told(rt, name, side, Ts2p(Two, T, s, STEP_LIMIT))?;
        }
    }
    Ok(())
}

// T of the searches in region 5.
pub fn ranges_T_5(rt: &impl Print) -> io::Result<()> {
    for (side, T) in around(1073.15) {
        told(
            rt,
            "region 5 (T,v), T = 1073.15",
            side,
            Tv2p(Five, T, 0.5, STEP_LIMIT),
        )?;
    }
    for (side, T) in around(2273.15) {
        told(
            rt,
            "region 5 (T,h), T = 2273.15",
            side,
            Th2p(Five, T, 7370.0, STEP_LIMIT),
        )?;
    }
    for (side, T) in around(1073.15) {
        told(
            rt,
            "region 5 (T,s), T = 1073.15",
            side,
            Ts2p(Five, T, 8.0, STEP_LIMIT),
        )?;
    }
    Ok(())
}
