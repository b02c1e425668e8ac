// A property by (p,T).
ghost use Rattle.std.specs.Prelude.{◌≡◌, ok_or};
ghost use Rattle.common.specs.declared.cause.Cause.TheVariants.{NamesNothing};
ghost use Rattle.vessel.specs.Asked.{place_of};
ghost use Rattle.vessel.specs.Calls.{formula as formula_of, value as value_of, property as property_of};
ghost use Rattle.vessel.specs.Names.{property_named};

use crate::answer::{Answer, direct};
use crate::asked::at_state;
use crate::range::check;
use common::boundaries::found;
use common::cause::Cause;
use pairs::row::Region;
use r1::region1_pT::{
    pT2cp_reg1, pT2cv_reg1, pT2h_reg1, pT2s_reg1, pT2u_reg1, pT2v_reg1, pT2w_reg1,
};
use r2::region2_pT::{
    pT2cp_reg2, pT2cv_reg2, pT2h_reg2, pT2s_reg2, pT2u_reg2, pT2v_reg2, pT2w_reg2,
};
use r5::region5_pT::{
    pT2cp_reg5, pT2cv_reg5, pT2h_reg5, pT2s_reg5, pT2u_reg5, pT2v_reg5, pT2w_reg5,
};

// v in m^3/kg, u and h in kJ/kg, s, cp and cv in kJ/(kg K), w in m/s.
#[derive(Clone, Copy)]
pub enum Property {
    Volume = 1,
    InternalEnergy = 2,
    Entropy = 3,
    Enthalpy = 4,
    Cp = 5,
    Cv = 6,
    SpeedOfSound = 7,
}

impl Property {
    // Its place in document 01's list. A method and no From: it is one cast.
    pub fn number(self) -> u32
        ensures { result ≡ place_of self }
    {
        self as u32
    }
}

impl TryFrom<u32> for Property {
    type Error = Cause;

    ghost try_from_gives = { λ number r. r ≡ ok_or (property_named number) NamesNothing };

    #[tactic(auto, unfolding(crate::specs::Names::property_named))]
    fn try_from(number: u32) -> Result<Self, Cause> {
        match number {
            1 => Ok(Property::Volume),
            2 => Ok(Property::InternalEnergy),
            3 => Ok(Property::Entropy),
            4 => Ok(Property::Enthalpy),
            5 => Ok(Property::Cp),
            6 => Ok(Property::Cv),
            7 => Ok(Property::SpeedOfSound),
            _ => Err(Cause::NamesNothing),
        }
    }
}

// The region's formula, with no check of the range.
#[tactic(auto, unfolding(crate::specs::Calls::formula))]
pub fn formula(region: Region, property: Property, p: f64, T: f64) -> f64
    ensures { result ≡ formula_of region property p T }
{
    match (region, property) {
        (Region::One, Property::Volume) => pT2v_reg1(p, T),
        (Region::One, Property::InternalEnergy) => pT2u_reg1(p, T),
        (Region::One, Property::Entropy) => pT2s_reg1(p, T),
        (Region::One, Property::Enthalpy) => pT2h_reg1(p, T),
        (Region::One, Property::Cp) => pT2cp_reg1(p, T),
        (Region::One, Property::Cv) => pT2cv_reg1(p, T),
        (Region::One, Property::SpeedOfSound) => pT2w_reg1(p, T),
        (Region::Two, Property::Volume) => pT2v_reg2(p, T),
        (Region::Two, Property::InternalEnergy) => pT2u_reg2(p, T),
        (Region::Two, Property::Entropy) => pT2s_reg2(p, T),
        (Region::Two, Property::Enthalpy) => pT2h_reg2(p, T),
        (Region::Two, Property::Cp) => pT2cp_reg2(p, T),
        (Region::Two, Property::Cv) => pT2cv_reg2(p, T),
        (Region::Two, Property::SpeedOfSound) => pT2w_reg2(p, T),
        (Region::Five, Property::Volume) => pT2v_reg5(p, T),
        (Region::Five, Property::InternalEnergy) => pT2u_reg5(p, T),
        (Region::Five, Property::Entropy) => pT2s_reg5(p, T),
        (Region::Five, Property::Enthalpy) => pT2h_reg5(p, T),
        (Region::Five, Property::Cp) => pT2cp_reg5(p, T),
        (Region::Five, Property::Cv) => pT2cv_reg5(p, T),
        (Region::Five, Property::SpeedOfSound) => pT2w_reg5(p, T),
    }
}

// The region's formula at a (p,T) that the rule lets in. The log asks it too; it is marked, since as a call of its own it costs every property some 3 ns.
#[tactic(auto, using(crate::proofs::Refusing::value_is))]
#[inline(always)]
pub fn value(region: Region, property: Property, p: f64, T: f64) -> Result<f64, Cause>
    ensures { result ≡ value_of region property p T }
{
    check(region, p, T)?;
    found(formula(region, property, p, T))
}

// A property of the named region at (p,T).
pub fn pT(region: Region, property: Property, p: f64, T: f64) -> Answer
    ensures { result ≡ property_of region property p T }
{
    let asked = at_state(Some(region), Some(property), p, T);
    direct(asked, value(region, property, p, T))
}
