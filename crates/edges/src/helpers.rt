// The float helpers at the edges: document 01's readings 1 to 7, and their neighbours.
use float::power::powi;
use float::root::{fourth_root, sqrt};
use float::sign::copysign;
use show::tell;
use std::io;

fn powers(rt: &impl Print) -> io::Result<()> {
    for (name, x) in [
        ("1: 2 to the -3", powi(2.0, -3)),
        ("2: -2 to the 3", powi(-2.0, 3)),
        ("3: 0 to the 0", powi(0.0, 0)),
        ("4: 3 to the 4", powi(3.0, 4)),
        ("NaN to the 0", powi(f64::NAN, 0)),
        ("infinity to the -1", powi(f64::INFINITY, -1)),
        ("-0 to the -3", powi(-0.0, -3)),
        ("-1 to the least i32", powi(-1.0, -2147483648)),
        ("2 to the least i32", powi(2.0, -2147483648)),
        ("10 to the -43", powi(10.0, -43)),
        ("10 to the 58", powi(10.0, 58)),
    ] {
        tell(rt, name, x)?;
    }
    Ok(())
}

fn roots(rt: &impl Print) -> io::Result<()> {
    for (name, x) in [
        ("5: root of 2.25", sqrt(2.25)),
        ("6: root of -1", sqrt(-1.0)),
        ("7: fourth root of 0.0625", fourth_root(0.0625)),
        ("root of -0", sqrt(-0.0)),
        ("root of infinity", sqrt(f64::INFINITY)),
        ("root of minus infinity", sqrt(f64::NEG_INFINITY)),
        ("root of the least double", sqrt(5.0e-324)),
        ("root of the largest double", sqrt(1.7976931348623157e308)),
    ] {
        tell(rt, name, x)?;
    }
    Ok(())
}

fn others(rt: &impl Print) -> io::Result<()> {
    for (name, x) in [
        ("logarithm of 1", float::log::ln(1.0)),
        ("logarithm of 1.0e-8", float::log::ln(1.0e-8)),
        (
            "logarithm of the double below 1.0e-8",
            float::log::ln(9.999999999999999e-9),
        ),
        ("logarithm of 101", float::log::ln(101.0)),
        (
            "logarithm of the double above 101",
            float::log::ln(101.00000000000001),
        ),
        ("magnitude of -0", float::sign::abs(-0.0)),
        ("1 with the sign of -0", copysign(1.0, -0.0)),
        ("-0 with the sign of 2", copysign(-0.0, 2.0)),
        ("-1 with the sign of NaN", copysign(-1.0, f64::NAN)),
        ("smaller of NaN and 3", float::sign::min(f64::NAN, 3.0)),
        ("smaller of 3 and NaN", float::sign::min(3.0, f64::NAN)),
    ] {
        tell(rt, name, x)?;
    }
    Ok(())
}

pub fn all(rt: &impl Print) -> io::Result<()> {
    powers(rt)?;
    roots(rt)?;
    others(rt)
}
