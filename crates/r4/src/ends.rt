// The ends of searches that are computed from the fixed input: a constant, or read off the saturation line or B23.
ghost use Rattle.std.specs.Prelude.{◌≡◌};
ghost use Rattle.r4.specs.Ends.{read_off, beside, p_lowest_1, T_most_1, T_least_2, p_most_2};

use crate::region4_sat_pT::{T_saturation, p_saturation, p_saturation_formula, surely_above};
use common::boundaries::{B23_T2p, B23_p2T, found};
use common::cause::Cause;
use common::constant::{P_MAX, P_MIN3, T_MAX1, T_MAX3, T_MIN};

// What a line answers, taken apart before it becomes an end: a double, or none where the line refuses. By let .. else and not by `.ok()`: docs/DECISIONS.md, the list of forms by place.
pub fn read_off(line: Result<f64, Cause>) -> Option<f64>
    ensures { result ≡ read_off line }
{
    let Ok(x) = line else {
        return None;
    };
    Some(x)
}

// The lowest pressure of region 1 at T.
#[tactic(auto, unfolding(crate::specs::Ends::p_lowest_1))]
pub fn T2pmin_reg1(T: f64) -> Option<f64>
    ensures { result ≡ p_lowest_1 T }
{
    read_off(p_saturation(T))
}

// Whether p is below the lowest pressure of region 1 at T; none where there is none. A bound tells it but near the line, where the line itself is asked.
pub fn beside_pmin_reg1(p: f64, T: f64) -> Option<bool>
    ensures { result ≡ beside p (p_lowest_1 T) }
{
    if surely_above(p, T) {
        return Some(false);
    }
    T2pmin_reg1(T).map(|least| p < least)
}

// The highest temperature of region 1 at p.
pub fn p2Tmax_reg1(p: f64) -> Option<f64>
    ensures { result ≡ T_most_1 p }
{
    if P_MIN3 <= p {
        return Some(T_MAX1);
    }
    read_off(T_saturation(p))
}

// The lowest temperature of region 2 at p.
pub fn p2Tmin_reg2(p: f64) -> Option<f64>
    ensures { result ≡ T_least_2 p }
{
    if p < 0.000611213 {
        return Some(T_MIN);
    }
    if p <= p_saturation_formula(T_MAX1) {
        return read_off(T_saturation(p));
    }
    read_off(found(B23_p2T(p)))
}

// The highest pressure of region 2 at T.
pub fn T2pmax_reg2(T: f64) -> Option<f64>
    ensures { result ≡ p_most_2 T }
{
    if T <= T_MAX1 {
        return read_off(p_saturation(T));
    }
    if T <= T_MAX3 {
        return read_off(found(B23_T2p(T)));
    }
    Some(P_MAX)
}
