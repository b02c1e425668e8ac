// The saturation line and the boundary between regions 2 and 3, with their ranges.
ghost use Rattle.std.specs.Prelude.{◌≡◌};
ghost use Rattle.vessel.specs.Calls.{saturation_pressure, saturation_temperature, B23_pressure, B23_temperature};

use crate::answer::{Answer, direct};
use crate::asked::{Kind, on_line};
use common::boundaries::{B23_T2p, B23_p2T, Range, checked};
use r4::region4_sat_pT::{T_saturation, p_saturation};

// The pressure of the saturation line at T.
#[tactic(auto, unfolding(crate::specs::Calls::saturation_pressure))]
pub fn saturation_pressure(T: f64) -> Answer
    ensures { result ≡ saturation_pressure T }
{
    direct(on_line(Kind::SaturationPressure, T), p_saturation(T))
}

// The temperature of the saturation line at p.
#[tactic(auto, unfolding(crate::specs::Calls::saturation_temperature))]
pub fn saturation_temperature(p: f64) -> Answer
    ensures { result ≡ saturation_temperature p }
{
    direct(on_line(Kind::SaturationTemperature, p), T_saturation(p))
}

// The pressure of B23 at T.
#[tactic(auto, unfolding(crate::specs::Calls::B23_pressure))]
pub fn B23_pressure(T: f64) -> Answer
    ensures { result ≡ B23_pressure T }
{
    direct(
        on_line(Kind::B23Pressure, T),
        checked(Range::T23, T, B23_T2p(T)),
    )
}

// The temperature of B23 at p.
#[tactic(auto, unfolding(crate::specs::Calls::B23_temperature))]
pub fn B23_temperature(p: f64) -> Answer
    ensures { result ≡ B23_temperature p }
{
    direct(
        on_line(Kind::B23Temperature, p),
        checked(Range::P23, p, B23_p2T(p)),
    )
}
