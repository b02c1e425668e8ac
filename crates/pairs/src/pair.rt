// A question's search, from the ends of its pair or between any two given ends, to its outcome.
ghost use Rattle.std.specs.Prelude.{◌≡◌};
ghost use Rattle.pairs.specs.Pairs.{asks, steps as steps_of, between as between_of, pair as pair_of};

use crate::question::Question;
use crate::root::{bisection, zbrent};
use crate::row::Pair;
use common::cause::Cause;
use search::bracket::{Bracket, Outcome, refused};
use search::method::Method;
use std::ops::ControlFlow;

// The search of the pair, from a bracket.
#[tactic(auto, unfolding(crate::specs::Pairs::steps, search::specs::Search::run))]
fn steps(question: Question, start: Bracket, limit: u32) -> Outcome
    ensures { result ≡ steps_of question start limit }
{
    match question.pair.method() {
        Method::ByBisection(rule) => bisection(question, rule, start, limit),
        Method::ByBrent => zbrent(question, start, limit),
    }
}

// The search between two given ends: 5; both ends evaluated: 6, a zero at either end, 7; then the steps.
pub fn between(question: Question, low: f64, high: f64, limit: u32) -> Outcome
    ensures { result ≡ between_of question low high limit }
{
    if low < high {
        let r1 = question.residual(low);
        let r2 = question.residual(high);
        let start = Bracket {
            x1: low,
            x2: high,
            r1,
            r2,
        };
        match start.opened() {
            ControlFlow::Break(o) => o,
            ControlFlow::Continue(b) => steps(question, b, limit),
        }
    } else {
        refused(Cause::EndsMeet)
    }
}

// The outcome of a pair, whatever its inputs: an end that is missing is 9. It leaves at once, by let .. else: docs/DECISIONS.md, the list of forms by place.
pub fn pair(named: Pair, fixed: f64, target: f64, limit: u32) -> Outcome
    ensures { result ≡ pair_of (asks named fixed target) limit }
{
    let lower = named.lower_end(fixed);
    let Some(low) = lower else {
        return refused(Cause::ResultNotFinite);
    };
    let upper = named.upper_end(fixed);
    let Some(high) = upper else {
        return refused(Cause::ResultNotFinite);
    };
    let question = Question {
        pair: named,
        fixed,
        target,
    };
    between(question, low, high, limit)
}
