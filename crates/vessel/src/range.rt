// The (p,T) rule: where each region begins and stops.
ghost use Rattle.std.specs.Prelude.{◌≡◌, cond, Ok, Err};
ghost use Rattle.common.specs.Boundaries.{inside as inside_range, cause_of};
ghost use Rattle.search.specs.Decision.{decided};
ghost use Rattle.vessel.specs.Range.{limits, refusing, number as number_of, check as check_of, inside as inside_of};

use common::boundaries::Range;
use common::cause::Cause;
use common::constant::P_MAX;
use float::sign::is_finite;
use pairs::row::Region;
use r4::ends::{T2pmax_reg2, beside_pmin_reg1};

// 0, or the cause's number.
pub fn number<A: Drop>(back: Result<A, Cause>) -> u32
    ensures { result ≡ number_of back }
{
    match back {
        Ok(_) => 0,
        Err(cause) => cause.number(),
    }
}

// Refuses an x that lies outside a range.
fn within(range: Range, x: f64) -> Result<(), Cause>
    ensures { result ≡ cond (inside_range range x) (Ok tt) (Err (cause_of range)) }
{
    if range.contains(x) {
        Ok(())
    } else {
        Err(range.cause())
    }
}

#[tactic(auto, unfolding(common::specs::Boundaries::cause_of))]
fn limits_1(p: f64, T: f64) -> Result<(), Cause>
    ensures { result ≡ decided (refusing (limits Region.One p T)) (Ok tt) }
{
    within(Range::T1, T)?;
    if P_MAX < p {
        return Err(Cause::PressureOutOfRange);
    }
    let below = beside_pmin_reg1(p, T).ok_or(Cause::ResultNotFinite)?;
    if below {
        return Err(Cause::PressureOutOfRange);
    }
    Ok(())
}

#[tactic(auto, unfolding(common::specs::Boundaries::cause_of))]
fn limits_2(p: f64, T: f64) -> Result<(), Cause>
    ensures { result ≡ decided (refusing (limits Region.Two p T)) (Ok tt) }
{
    within(Range::T2, T)?;
    within(Range::P2, p)?;
    let most = T2pmax_reg2(T).ok_or(Cause::ResultNotFinite)?;
    if most < p {
        return Err(Cause::PressureOutOfRange);
    }
    Ok(())
}

#[tactic(auto, unfolding(common::specs::Boundaries::cause_of))]
fn limits_5(p: f64, T: f64) -> Result<(), Cause>
    ensures { result ≡ decided (refusing (limits Region.Five p T)) (Ok tt) }
{
    within(Range::T5, T)?;
    within(Range::P5, p)
}

// Refuses a (p,T) that the rule does not let in.
#[tactic(auto, unfolding(crate::specs::Range::check))]
pub fn check(region: Region, p: f64, T: f64) -> Result<(), Cause>
    ensures { result ≡ check_of region p T }
{
    if !(is_finite(p) && is_finite(T)) {
        return Err(Cause::InputNotFinite);
    }
    match region {
        Region::One => limits_1(p, T),
        Region::Two => limits_2(p, T),
        Region::Five => limits_5(p, T),
    }
}

// The mark: whether the rule has (p,T) inside.
#[tactic(auto, unfolding(crate::specs::Range::inside))]
pub fn inside(region: Region, p: f64, T: f64) -> bool
    ensures { result ≡ inside_of region p T }
{
    check(region, p, T).is_ok()
}
