// The boundary between regions 2 and 3, and the ranges that read no boundary.
ghost use Rattle.std.specs.Prelude.{◌≡◌};
ghost use Rattle.common.specs.Boundaries.{B23_p, B23_T, least as least_of, most as most_of, inside, of_pressures, cause_of, found as found_of, checked as checked_of};

use crate::cause::Cause;
use crate::constant::{
    P_MAX, P_MAX4, P_MAX5, P_MIN1, P_MIN2, P_MIN3, P_MIN4, T_MAX1, T_MAX2, T_MAX3, T_MAX4, T_MAX5,
    T_MIN,
};
use float::root::sqrt;
use float::sign::is_finite;

// The pressure of the boundary at T, with no check of the range.
pub fn B23_T2p(T: f64) -> f64
    ensures { result ≡ B23_p T }
{
    0.34805185628969e3 + T * (-0.11671859879975e1 + T * 0.10192970039326e-2)
}

// The temperature of the boundary at p, with no check of the range.
pub fn B23_p2T(p: f64) -> f64
    ensures { result ≡ B23_T p }
{
    0.57254459862746e3 + sqrt((p - 0.13918839778870e2) / 0.10192970039326e-2)
}

// The ranges of document 01 that read no boundary: of T and p in region 1, region 2, region 5, on the saturation line and on B23.
#[derive(Clone, Copy)]
pub enum Range {
    T1,
    P1,
    T2,
    P2,
    T5,
    P5,
    T4,
    P4,
    T23,
    P23,
}

impl Range {
    fn least(self) -> f64
        ensures { result ≡ least_of self }
    {
        match self {
            Range::T1 | Range::T2 | Range::T4 => T_MIN,
            Range::P1 => P_MIN1,
            Range::P2 | Range::P5 => P_MIN2,
            Range::T5 => T_MAX2,
            Range::P4 => P_MIN4,
            Range::T23 => T_MAX1,
            Range::P23 => P_MIN3,
        }
    }

    fn most(self) -> f64
        ensures { result ≡ most_of self }
    {
        match self {
            Range::T1 => T_MAX1,
            Range::P1 | Range::P2 | Range::P23 => P_MAX,
            Range::T2 => T_MAX2,
            Range::T5 => T_MAX5,
            Range::P5 => P_MAX5,
            Range::T4 => T_MAX4,
            Range::P4 => P_MAX4,
            Range::T23 => T_MAX3,
        }
    }

    // Whether x lies in the range, both ends included; a NaN does not.
    #[tactic(auto, unfolding(crate::specs::Boundaries::inside))]
    pub fn contains(self, x: f64) -> bool
        ensures { result ≡ inside self x }
    {
        self.least() <= x && x <= self.most()
    }

    // Whether the range is one of pressures; the others are of temperatures.
    pub fn of_pressures(self) -> bool
        ensures { result ≡ of_pressures self }
    {
        matches!(
            self,
            Range::P1 | Range::P2 | Range::P5 | Range::P4 | Range::P23
        )
    }

    // Why what lies outside the range is refused.
    #[tactic(auto, unfolding(crate::specs::Boundaries::cause_of))]
    pub fn cause(self) -> Cause
        ensures { result ≡ cause_of self }
    {
        if self.of_pressures() {
            Cause::PressureOutOfRange
        } else {
            Cause::TemperatureOutOfRange
        }
    }
}

// What a boundary answers as a bracket end or a region's boundary: its double, where that is finite.
#[tactic(auto, unfolding(crate::specs::Boundaries::found))]
pub fn found(value: f64) -> Result<f64, Cause>
    ensures { result ≡ found_of value }
{
    if is_finite(value) {
        Ok(value)
    } else {
        Err(Cause::ResultNotFinite)
    }
}

// What a boundary answers at x: the formula's value, or why the call is refused.
#[tactic(auto, unfolding(crate::specs::Boundaries::checked))]
pub fn checked(range: Range, x: f64, value: f64) -> Result<f64, Cause>
    ensures { result ≡ checked_of range x value }
{
    if !is_finite(x) {
        return Err(Cause::InputNotFinite);
    }
    if !range.contains(x) {
        return Err(range.cause());
    }
    found(value)
}
