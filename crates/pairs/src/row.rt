// A pair is a row: the named choice, in place of the Rust's closures and IF97_EQ, and what document 01 says of each, attribute by attribute.
ghost use Rattle.std.specs.Prelude.{◌≡◌, ok_or};
ghost use Rattle.common.specs.declared.cause.Cause.TheVariants.{NamesNothing};
ghost use Rattle.pairs.specs.Names.{number_of, region_named};
ghost use Rattle.pairs.specs.Rows.{row};

use common::boundaries::Range;
use common::cause::Cause;
use common::constant::{P_MAX, P_MAX5, P_MIN2, T_MAX2, T_MIN};
use r1::region1_pT::{pT2h_reg1, pT2s_reg1, pT2v_reg1};
use r2::region2_pT::{pT2h_reg2, pT2s_reg2, pT2v_reg2};
use r4::ends::{T2pmax_reg2, T2pmin_reg1, p2Tmax_reg1, p2Tmin_reg2};
use r5::region5_pT::{pT2h_reg5, pT2s_reg5, pT2v_reg5};
use search::bisection::Width;
use search::method::Method;

// The region, always named by the caller. Each has its own number.
#[derive(Clone, Copy)]
pub enum Region {
    One = 1,
    Two = 2,
    Five = 5,
}

impl Region {
    // A method and no From: it is one cast.
    pub fn number(self) -> u32
        ensures { result ≡ number_of self }
    {
        self as u32
    }
}

impl TryFrom<u32> for Region {
    type Error = Cause;

    ghost try_from_gives = { λ number r. r ≡ ok_or (region_named number) NamesNothing };

    #[tactic(auto, unfolding(crate::specs::Names::region_named))]
    fn try_from(number: u32) -> Result<Self, Cause> {
        match number {
            1 => Ok(Region::One),
            2 => Ok(Region::Two),
            5 => Ok(Region::Five),
            _ => Err(Cause::NamesNothing),
        }
    }
}

// Each is named after its inputs and its region: Pv1 is the Rust's pv2T_reg1, Ts2 its Ts2p_reg2. Region 5 has no (p,v).
#[derive(Clone, Copy)]
pub enum Pair {
    Pv1,
    Tv1,
    Th1,
    Ts1,
    Pv2,
    Tv2,
    Th2,
    Ts2,
    Tv5,
    Th5,
    Ts5,
}

impl Pair {
    pub fn region(self) -> Region
        ensures { result ≡ (row self).region }
    {
        match self {
            Pair::Pv1 | Pair::Tv1 | Pair::Th1 | Pair::Ts1 => Region::One,
            Pair::Pv2 | Pair::Tv2 | Pair::Th2 | Pair::Ts2 => Region::Two,
            Pair::Tv5 | Pair::Th5 | Pair::Ts5 => Region::Five,
        }
    }

    // Of pressures or of temperatures: where the fixed input has to lie.
    pub fn range(self) -> Range
        ensures { result ≡ (row self).range }
    {
        match self {
            Pair::Pv1 => Range::P1,
            Pair::Tv1 | Pair::Th1 | Pair::Ts1 => Range::T1,
            Pair::Pv2 => Range::P2,
            Pair::Tv2 | Pair::Th2 | Pair::Ts2 => Range::T2,
            Pair::Tv5 | Pair::Th5 | Pair::Ts5 => Range::T5,
        }
    }

    // Whether the target is a volume.
    pub fn of_volume(self) -> bool
        ensures { result ≡ (row self).volume }
    {
        match self {
            Pair::Pv1 | Pair::Tv1 | Pair::Pv2 | Pair::Tv2 | Pair::Tv5 => true,
            Pair::Th1 | Pair::Ts1 | Pair::Th2 | Pair::Ts2 | Pair::Th5 | Pair::Ts5 => false,
        }
    }

    pub fn lower_end(self, fixed: f64) -> Option<f64>
        ensures { result ≡ (row self).lower fixed }
    {
        match self {
            Pair::Pv1 => Some(T_MIN),
            Pair::Tv1 | Pair::Th1 | Pair::Ts1 => T2pmin_reg1(fixed),
            Pair::Pv2 => p2Tmin_reg2(fixed),
            Pair::Tv2 | Pair::Th2 | Pair::Ts2 | Pair::Tv5 | Pair::Th5 | Pair::Ts5 => Some(P_MIN2),
        }
    }

    pub fn upper_end(self, fixed: f64) -> Option<f64>
        ensures { result ≡ (row self).upper fixed }
    {
        match self {
            Pair::Pv1 => p2Tmax_reg1(fixed),
            Pair::Tv1 | Pair::Th1 | Pair::Ts1 | Pair::Tv2 | Pair::Th2 => Some(P_MAX),
            Pair::Pv2 => Some(T_MAX2),
            Pair::Ts2 => T2pmax_reg2(fixed),
            Pair::Tv5 | Pair::Th5 | Pair::Ts5 => Some(P_MAX5),
        }
    }

    // The property that is found, by its formula at any p and T.
    pub fn formula(self, p: f64, T: f64) -> f64
        ensures { result ≡ (row self).formula p T }
    {
        match self {
            Pair::Pv1 | Pair::Tv1 => pT2v_reg1(p, T),
            Pair::Th1 => pT2h_reg1(p, T),
            Pair::Ts1 => pT2s_reg1(p, T),
            Pair::Pv2 | Pair::Tv2 => pT2v_reg2(p, T),
            Pair::Th2 => pT2h_reg2(p, T),
            Pair::Ts2 => pT2s_reg2(p, T),
            Pair::Tv5 => pT2v_reg5(p, T),
            Pair::Th5 => pT2h_reg5(p, T),
            Pair::Ts5 => pT2s_reg5(p, T),
        }
    }

    pub fn method(self) -> Method
        ensures { result ≡ (row self).method }
    {
        match self {
            Pair::Pv1 => Method::ByBisection(Width::Millionth),
            Pair::Tv2 => Method::ByBisection(Width::MillionthOfUpper),
            Pair::Tv1
            | Pair::Th1
            | Pair::Ts1
            | Pair::Pv2
            | Pair::Th2
            | Pair::Ts2
            | Pair::Tv5
            | Pair::Th5
            | Pair::Ts5 => Method::ByBrent,
        }
    }
}
