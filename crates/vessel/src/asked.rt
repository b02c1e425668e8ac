// What a call is of: one record, made once per call, which every answer and every refusal carries.
ghost use Rattle.std.specs.Prelude.{◌≡◌, ok_or};
ghost use Rattle.common.specs.declared.cause.Cause.TheVariants.{NamesNothing};
ghost use Rattle.vessel.specs.Asked.{region_number, property_number, kind_number, kind_of, at_state, on_line, of_pair};
ghost use Rattle.vessel.specs.Names.{kind_named};

use crate::property::Property;
use common::cause::Cause;
use pairs::row::{Pair, Region};

// The kind of a call: after its two inputs, or after the coordinate of a line that it asks for.
#[derive(Clone, Copy)]
pub enum Kind {
    PT = 1,
    SaturationPressure = 2,
    SaturationTemperature = 3,
    B23Pressure = 4,
    B23Temperature = 5,
    Pv = 6,
    Tv = 7,
    Th = 8,
    Ts = 9,
}

// A call on a line names no region, and only one by (p,T) a property; a number of the C interface may name neither. The inputs are in the call's order; the second is 0 where there is none.
#[derive(Clone, Copy)]
pub struct Asked {
    pub kind: Kind,
    pub region: Option<Region>,
    pub property: Option<Property>,
    pub first: f64,
    pub second: f64,
}

impl Kind {
    // A method and no From: it is one cast.
    pub fn number(self) -> u32
        ensures { result ≡ kind_number self }
    {
        self as u32
    }
}

impl TryFrom<u32> for Kind {
    type Error = Cause;

    ghost try_from_gives = { λ number r. r ≡ ok_or (kind_named number) NamesNothing };

    #[tactic(auto, unfolding(crate::specs::Names::kind_named))]
    fn try_from(number: u32) -> Result<Self, Cause> {
        match number {
            1 => Ok(Kind::PT),
            2 => Ok(Kind::SaturationPressure),
            3 => Ok(Kind::SaturationTemperature),
            4 => Ok(Kind::B23Pressure),
            5 => Ok(Kind::B23Temperature),
            6 => Ok(Kind::Pv),
            7 => Ok(Kind::Tv),
            8 => Ok(Kind::Th),
            9 => Ok(Kind::Ts),
            _ => Err(Cause::NamesNothing),
        }
    }
}

// 0 where no region is named.
pub fn region_number(region: Option<Region>) -> u32
    ensures { result ≡ region_number region }
{
    region.map_or(0, Region::number)
}

// 0 where no property is named.
pub fn property_number(property: Option<Property>) -> u32
    ensures { result ≡ property_number property }
{
    property.map_or(0, Property::number)
}

// The kind of the call that a pair belongs to.
pub fn kind_of(pair: Pair) -> Kind
    ensures { result ≡ kind_of pair }
{
    match pair {
        Pair::Pv1 | Pair::Pv2 => Kind::Pv,
        Pair::Tv1 | Pair::Tv2 | Pair::Tv5 => Kind::Tv,
        Pair::Th1 | Pair::Th2 | Pair::Th5 => Kind::Th,
        Pair::Ts1 | Pair::Ts2 | Pair::Ts5 => Kind::Ts,
    }
}

// A property by (p,T).
pub fn at_state(region: Option<Region>, property: Option<Property>, p: f64, T: f64) -> Asked
    ensures { result ≡ at_state region property p T }
{
    Asked {
        kind: Kind::PT,
        region,
        property,
        first: p,
        second: T,
    }
}

// A coordinate of a line, by the other one.
pub fn on_line(kind: Kind, x: f64) -> Asked
    ensures { result ≡ on_line kind x }
{
    Asked {
        kind,
        region: None,
        property: None,
        first: x,
        second: 0.0,
    }
}

// A search by a pair.
pub fn of_pair(kind: Kind, region: Option<Region>, fixed: f64, target: f64) -> Asked
    ensures { result ≡ of_pair kind region fixed target }
{
    Asked {
        kind,
        region,
        property: None,
        first: fixed,
        second: target,
    }
}
