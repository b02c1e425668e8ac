// The calls that search: (p,v) to T, and (T,v), (T,h), (T,s) to p, each with the region named and a step limit.
ghost use Rattle.std.specs.Prelude.{◌≡◌, ok_or};
ghost use Rattle.common.specs.declared.cause.Cause.TheVariants.{NamesNothing};
ghost use Rattle.pairs.specs.Pairs.{asks};
ghost use Rattle.vessel.specs.Names.{pv_region_named};
ghost use Rattle.vessel.specs.Searches.{volume_refused, outcome as outcome_of, mark as mark_of, asked as asked_of, search as search_of, pv2T as pv2Tof, Tv2p as Tv2p_of, Th2p as Th2p_of, Ts2p as Ts2p_of};

use crate::answer::{Answer, answered, value};
use crate::asked::{Asked, kind_of, of_pair};
use crate::range::inside;
use common::cause::Cause;
use float::sign::is_finite;
use pairs::pair::pair as search_pair;
use pairs::question::Question;
use pairs::row::{Pair, Region};
use search::bracket::{Outcome, refused};

// The largest step limit; a larger one is refused.
pub const LARGEST_STEP_LIMIT: u32 = 65535;

// The step limit that the vessels use.
pub const STEP_LIMIT: u32 = 20000;

// The region of (p,v), a choice of its own: this pair has these two regions only.
#[derive(Clone, Copy)]
pub enum PvRegion {
    One,
    Two,
}

impl TryFrom<u32> for PvRegion {
    type Error = Cause;

    ghost try_from_gives = { λ number r. r ≡ ok_or (pv_region_named number) NamesNothing };

    #[tactic(auto, unfolding(crate::specs::Names::pv_region_named))]
    fn try_from(number: u32) -> Result<Self, Cause> {
        match number {
            1 => Ok(PvRegion::One),
            2 => Ok(PvRegion::Two),
            _ => Err(Cause::NamesNothing),
        }
    }
}

// Whether the target is a volume that is not above zero.
#[tactic(auto, unfolding(crate::specs::Searches::volume_refused, float::specs::Decimal::rounded))]
fn volume_refused(question: Question) -> bool
    ensures { result ≡ volume_refused question }
{
    question.pair.of_volume() && !(0.0 < question.target)
}

// The outcome of a search: 11, 1, 2 or 3, 4, then what the pair decides.
#[tactic(auto, unfolding(crate::specs::Searches::outcome, pairs::specs::Pairs::pair))]
fn outcome(question: Question, limit: u32) -> Outcome
    ensures { result ≡ outcome_of question limit }
{
    if limit > LARGEST_STEP_LIMIT {
        return refused(Cause::LimitTooLarge);
    }
    if !(is_finite(question.fixed) && is_finite(question.target)) {
        return refused(Cause::InputNotFinite);
    }
    let range = question.pair.range();
    if !range.contains(question.fixed) {
        return refused(range.cause());
    }
    if volume_refused(question) {
        return refused(Cause::VolumeNotAboveZero);
    }
    search_pair(question.pair, question.fixed, question.target, limit)
}

// The mark of a found x: a pressure with its T, a temperature with its p.
#[tactic(auto, unfolding(crate::specs::Searches::mark))]
fn mark(question: Question, x: f64) -> bool
    ensures { result ≡ mark_of question x }
{
    let state = question.state(x);
    inside(question.pair.region(), state.p, state.T)
}

// What the call of a question is of.
fn asked(question: Question) -> Asked
    ensures { result ≡ asked_of question }
{
    let pair = question.pair;
    let region = Some(pair.region());
    of_pair(kind_of(pair), region, question.fixed, question.target)
}

// A search with its mark.
#[tactic(auto, unfolding(crate::specs::Searches::search))]
fn search(pair: Pair, fixed: f64, target: f64, limit: u32) -> Answer
    ensures { result ≡ search_of (asks pair fixed target) limit }
{
    let question = Question {
        pair,
        fixed,
        target,
    };
    let found = outcome(question, limit);
    answered(asked(question), found, mark(question, value(found)))
}

// (p,v) to T.
pub fn pv2T(region: PvRegion, p: f64, v: f64, limit: u32) -> Answer
    ensures { result ≡ pv2Tof region p v limit }
{
    match region {
        PvRegion::One => search(Pair::Pv1, p, v, limit),
        PvRegion::Two => search(Pair::Pv2, p, v, limit),
    }
}

// (T,v) to p. This call and the two below differ in their pairs alone: a table of three pairs by region would stand in place of each match, and one function over it beside.
pub fn Tv2p(region: Region, T: f64, v: f64, limit: u32) -> Answer
    ensures { result ≡ Tv2p_of region T v limit }
{
    match region {
        Region::One => search(Pair::Tv1, T, v, limit),
        Region::Two => search(Pair::Tv2, T, v, limit),
        Region::Five => search(Pair::Tv5, T, v, limit),
    }
}

// (T,h) to p.
pub fn Th2p(region: Region, T: f64, h: f64, limit: u32) -> Answer
    ensures { result ≡ Th2p_of region T h limit }
{
    match region {
        Region::One => search(Pair::Th1, T, h, limit),
        Region::Two => search(Pair::Th2, T, h, limit),
        Region::Five => search(Pair::Th5, T, h, limit),
    }
}

// (T,s) to p.
pub fn Ts2p(region: Region, T: f64, s: f64, limit: u32) -> Answer
    ensures { result ≡ Ts2p_of region T s limit }
{
    match region {
        Region::One => search(Pair::Ts1, T, s, limit),
        Region::Two => search(Pair::Ts2, T, s, limit),
        Region::Five => search(Pair::Ts5, T, s, limit),
    }
}
