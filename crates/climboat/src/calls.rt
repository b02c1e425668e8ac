// The vessel's calls by number: a region or property number that names nothing is refused by 21 before anything else is looked at, and what could not be named is told as nothing.
ghost use Rattle.std.specs.Prelude.{◌≡◌};
ghost use Rattle.vessel.specs.Log.{lent};
ghost use Rattle.climboat.specs.Calls.{pT as pTof, pT_log as pT_log_of, pv2T as pv2Tof, Tv2p as Tv2p_of, Th2p as Th2p_of, Ts2p as Ts2p_of};

use common::cause::Cause;
use pairs::row::Region;
use vessel::answer::{Answer, refused};
use vessel::asked::{Kind, at_state, of_pair};
use vessel::pair::PvRegion;
use vessel::property::Property;

#[tactic(auto, unfolding(crate::specs::Calls::pT, crate::specs::Calls::in_region, crate::specs::Calls::of_property))]
pub fn pT(region: u32, property: u32, p: f64, T: f64) -> Answer
    ensures { result ≡ pTof region property p T }
{
    let region = Region::try_from(region).ok();
    let property = Property::try_from(property).ok();
    let asked = at_state(region, property, p, T);
    let (Some(region), Some(property)) = (region, property) else {
        return refused(asked, Cause::NamesNothing);
    };
    vessel::property::pT(region, property, p, T)
}

// Where a number names nothing 21 comes back, and nothing is written.
#[tactic(auto, unfolding(crate::specs::Calls::pT_log, crate::specs::Calls::named_log))]
pub fn pT_log(
    region: u32,
    property: u32,
    p: &[f64],
    T: &[f64],
    values: &mut [f64],
    numbers: &mut [u32],
) -> Result<(), Cause>
    ensures value { result ≡ (pT_log_of region property (lent p.now T.now values.old numbers.old)).back }
    ensures values_after { values.new ≡ (pT_log_of region property (lent p.now T.now values.old numbers.old)).values }
    ensures numbers_after { numbers.new ≡ (pT_log_of region property (lent p.now T.now values.old numbers.old)).numbers }
{
    let (Ok(region), Ok(property)) = (Region::try_from(region), Property::try_from(property)) else {
        return Err(Cause::NamesNothing);
    };
    vessel::log::pT_log(region, property, p, T, values, numbers)
}

#[tactic(auto, unfolding(crate::specs::Calls::pv2T, crate::specs::Calls::in_pv_region))]
pub fn pv2T(region: u32, p: f64, v: f64, limit: u32) -> Answer
    ensures { result ≡ pv2Tof region p v limit }
{
    let Ok(region) = PvRegion::try_from(region) else {
        return refused(of_pair(Kind::Pv, None, p, v), Cause::NamesNothing);
    };
    vessel::pair::pv2T(region, p, v, limit)
}

// This call and the two below differ in their search alone. One function over a closure would have to require that it may be called, and to say its result through the closure's own contract: longer than the three.
#[tactic(auto, unfolding(crate::specs::Calls::Tv2p, crate::specs::Calls::in_region))]
pub fn Tv2p(region: u32, T: f64, v: f64, limit: u32) -> Answer
    ensures { result ≡ Tv2p_of region T v limit }
{
    let Ok(region) = Region::try_from(region) else {
        return refused(of_pair(Kind::Tv, None, T, v), Cause::NamesNothing);
    };
    vessel::pair::Tv2p(region, T, v, limit)
}

#[tactic(auto, unfolding(crate::specs::Calls::Th2p, crate::specs::Calls::in_region))]
pub fn Th2p(region: u32, T: f64, h: f64, limit: u32) -> Answer
    ensures { result ≡ Th2p_of region T h limit }
{
    let Ok(region) = Region::try_from(region) else {
        return refused(of_pair(Kind::Th, None, T, h), Cause::NamesNothing);
    };
    vessel::pair::Th2p(region, T, h, limit)
}

#[tactic(auto, unfolding(crate::specs::Calls::Ts2p, crate::specs::Calls::in_region))]
pub fn Ts2p(region: u32, T: f64, s: f64, limit: u32) -> Answer
    ensures { result ≡ Ts2p_of region T s limit }
{
    let Ok(region) = Region::try_from(region) else {
        return refused(of_pair(Kind::Ts, None, T, s), Cause::NamesNothing);
    };
    vessel::pair::Ts2p(region, T, s, limit)
}
