// The release's check values, Tables 5, 15, 35, 36 and 42 and B23's check point: each property's value to nine digits, and whether it agrees with the printed one.
#![tactic(auto)]

use common::boundaries::{B23_T2p, B23_p2T};
use float::power::powi;
use pairs::row::Region;
use r4::region4_sat_pT::{T_saturation_formula, p_saturation_formula};
use std::{fmt, io};
use vessel::property::{Property, formula};

// A value as the release prints it: the digits behind the point, and the power of ten.
#[derive(Clone, Copy, PartialEq, Eq)]
struct Printed(u64, i8);

impl Printed {
    // A value to nine digits behind the point, under this power of ten. The powers that move the point are doubles without rounding.
    fn rounded(x: f64, power: i8) -> Option<Printed> {
        let y = x * powi(10.0, 9 - i32::from(power)) + 0.5;
        if y > -1.0 && y < 18446744073709551616.0 {
            Some(Printed(std::num::truncating_f64_to_u64(y), power))
        } else {
            None
        }
    }
}

impl fmt::Display for Printed {
    fn fmt<W: fmt::Write>(&self, f: &mut fmt::Formatter<W>) -> fmt::Result {
        let Printed(digits, power) = *self;
        write!(f, "0.{digits}")?;
        if power == 0 {
            return Ok(());
        }
        write!(f, "e{power}")
    }
}

// A value with the state that it is of, and whether it agrees with the printed one.
fn line<S: fmt::Display + Drop>(
    rt: &impl Print,
    state: S,
    property: &str,
    x: f64,
    printed: Printed,
) -> io::Result<()> {
    match Printed::rounded(x, printed.1) {
        Some(found) if found == printed => println!(rt; "{state}: {property} = {found} agrees"),
        Some(found) => println!(rt; "{state}: {property} = {found} DIFFERS from {printed}"),
        None => println!(rt; "{state}: {property} has no digits, and DIFFERS from {printed}"),
    }
}

// The properties in the rows of Tables 5, 15 and 42, each with its sign.
const PROPERTIES: [(Property, &str); 6] = [
    (Property::Volume, "v"),
    (Property::Enthalpy, "h"),
    (Property::InternalEnergy, "u"),
    (Property::Entropy, "s"),
    (Property::Cp, "cp"),
    (Property::SpeedOfSound, "w"),
];

// A table of a region: p and T of each column, and the rows as they are printed.
fn table(
    rt: &impl Print,
    name: &str,
    region: Region,
    states: [(f64, f64); 3],
    rows: [[(u64, i8); 3]; 6],
) -> io::Result<()> {
    for (column, (p, T)) in states.iter().enumerate() {
        for ((property, sign), row) in PROPERTIES.iter().zip(rows.iter()) {
            let (digits, power) = row[column];
            let state = format_args!("{name}, {p} MPa, {T} K");
            let x = formula(region, *property, *p, *T);
            line(rt, state, sign, x, Printed(digits, power))?;
        }
    }
    Ok(())
}

fn table5(rt: &impl Print) -> io::Result<()> {
    let states = [(3.0, 300.0), (80.0, 300.0), (3.0, 500.0)];
    let rows = [
        [(100215168, -2), (971180894, -3), (120241800, -2)],
        [(115331273, 3), (184142828, 3), (975542239, 3)],
        [(112324818, 3), (106448356, 3), (971934985, 3)],
        [(392294792, 0), (368563852, 0), (258041912, 1)],
        [(417301218, 1), (401008987, 1), (465580682, 1)],
        [(150773921, 4), (163469054, 4), (124071337, 4)],
    ];
    table(rt, "Table 5", Region::One, states, rows)
}

fn table15(rt: &impl Print) -> io::Result<()> {
    let states = [(0.0035, 300.0), (0.0035, 700.0), (30.0, 700.0)];
    let rows = [
        [(394913866, 2), (923015898, 2), (542946619, -2)],
        [(254991145, 4), (333568375, 4), (263149474, 4)],
        [(241169160, 4), (301262819, 4), (246861076, 4)],
        [(852238967, 1), (101749996, 2), (517540298, 1)],
        [(191300162, 1), (208141274, 1), (103505092, 2)],
        [(427920172, 3), (644289068, 3), (480386523, 3)],
    ];
    table(rt, "Table 15", Region::Two, states, rows)
}

fn table42(rt: &impl Print) -> io::Result<()> {
    let states = [(0.5, 1500.0), (30.0, 1500.0), (30.0, 2000.0)];
    let rows = [
        [(138455090, 1), (230761299, -1), (311385219, -1)],
        [(521976855, 4), (516723514, 4), (657122604, 4)],
        [(452749310, 4), (447495124, 4), (563707038, 4)],
        [(965408875, 1), (772970133, 1), (853640523, 1)],
        [(261609445, 1), (272724317, 1), (288569882, 1)],
        [(917068690, 3), (928548002, 3), (106736948, 4)],
    ];
    table(rt, "Table 42", Region::Five, states, rows)
}

// A table of the saturation line: each row's input in its unit, and the other coordinate as it is printed.
fn line_table<F: Fn(f64) -> f64>(
    rt: &impl Print,
    name: &str,
    unit: &str,
    sign: &str,
    coordinate: F,
    rows: [(f64, Printed); 3],
) -> io::Result<()>
    requires { F.IsAlwaysCallable coordinate }
{
    for (x, printed) in rows {
        line(
            rt,
            format_args!("{name}, {x} {unit}"),
            sign,
            coordinate(x),
            printed,
        )?;
    }
    Ok(())
}

fn table35(rt: &impl Print) -> io::Result<()> {
    let rows = [
        (300.0, Printed(353658941, -2)),
        (500.0, Printed(263889776, 1)),
        (600.0, Printed(123443146, 2)),
    ];
    line_table(rt, "Table 35", "K", "p", p_saturation_formula, rows)
}

fn table36(rt: &impl Print) -> io::Result<()> {
    let rows = [
        (0.1, Printed(372755919, 3)),
        (1.0, Printed(453035632, 3)),
        (10.0, Printed(584149488, 3)),
    ];
    line_table(rt, "Table 36", "MPa", "T", T_saturation_formula, rows)
}

fn b23(rt: &impl Print) -> io::Result<()> {
    line(
        rt,
        "B23, 623.15 K",
        "p",
        B23_T2p(623.15),
        Printed(165291643, 2),
    )?;
    line(
        rt,
        "B23, 16.5291643 MPa",
        "T",
        B23_p2T(16.5291643),
        Printed(623150000, 3),
    )
}

fn main(rt: HostRuntime) -> io::Result<()> {
    table5(&rt)?;
    table15(&rt)?;
    table35(&rt)?;
    table36(&rt)?;
    table42(&rt)?;
    b23(&rt)
}
