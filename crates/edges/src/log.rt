// Logs of six places: every number that the (p,T) rule gives, with answers between them; then lengths that are refused, and a log of no place.
use pairs::row::Region;
use show::Bits;
use std::io;
use vessel::log::pT_log;
use vessel::property::Property;
use vessel::range::number;

// What comes back, 0 where the runs are filled, then each place. The runs before a call hold what no call gives.
fn asked(
    rt: &impl Print,
    name: &str,
    region: Region,
    property: Property,
    p: &[f64],
    T: &[f64],
) -> io::Result<()> {
    let mut values = [-1.0; 6];
    let mut numbers = [99; 6];
    let back = number(pT_log(region, property, p, T, &mut values, &mut numbers));
    println!(rt; "{name}: {back}")?;
    for (number, value) in numbers.iter().zip(values.iter()) {
        println!(rt; "  number {number}, value {}", Bits(*value))?;
    }
    Ok(())
}

pub fn filled(rt: &impl Print) -> io::Result<()> {
    let p = [3.0, f64::NAN, 3.0, 0.1, 100.0, 101.0];
    let T = [300.0, 300.0, 200.0, 400.0, 623.15, 300.0];
    asked(
        rt,
        "log of v in region 1",
        Region::One,
        Property::Volume,
        &p,
        &T,
    )?;
    asked(
        rt,
        "log of h in region 2",
        Region::Two,
        Property::Enthalpy,
        &p,
        &T,
    )
}

pub fn filled_5(rt: &impl Print) -> io::Result<()> {
    let p = [0.5, 0.5, 50.0, 51.0, f64::INFINITY, 0.0];
    let T = [1500.0, 2273.15, 1073.15, 1500.0, 1500.0, 1500.0];
    asked(
        rt,
        "log of w in region 5",
        Region::Five,
        Property::SpeedOfSound,
        &p,
        &T,
    )
}

pub fn refused(rt: &impl Print) -> io::Result<()> {
    let six = [3.0; 6];
    let five = [300.0; 5];
    let seven = [300.0; 7];
    asked(
        rt,
        "log, p one place short",
        Region::One,
        Property::Volume,
        &five,
        &six,
    )?;
    asked(
        rt,
        "log, T one place long",
        Region::One,
        Property::Volume,
        &six,
        &seven,
    )?;
    asked(
        rt,
        "log, values and numbers one place short",
        Region::One,
        Property::Volume,
        &seven,
        &seven,
    )
}

pub fn empty(rt: &impl Print) -> io::Result<()> {
    let back = number(pT_log(Region::One, Property::Volume, &[], &[], &mut [], &mut []));
    println!(rt; "log of no place: {back}")
}
