// The two searches as one loop over a question, for any step limit: algo/root.rs of the Rust.
ghost use Rattle.std.specs.Prelude.{◌≡◌, ℕ, ◌+◌, ◌^◌, ◌<◌, Float};
ghost use Rattle.std.specs.declared.ops.ControlFlow.{ControlFlow};
ghost use Rattle.search.specs.declared.bracket.Outcome.{Outcome};
ghost use Rattle.search.specs.Run.{run_from};
ghost use Rattle.search.specs.Bisection as bisecting;
ghost use Rattle.search.specs.Bisection.{width_of, bisection as bisection_of};
ghost use Rattle.search.specs.Brent as brenting;
ghost use Rattle.search.specs.Brent.{zbrent as zbrent_of};
ghost use Rattle.pairs.specs.Residual.{residual as residual_of};

use crate::question::Question;
use common::cause::Cause;
use search::bisection::Width;
use search::bracket::{Bracket, Outcome};
use search::brent::Brent;
use std::ops::ControlFlow;

// What a search is to its loop: a state that a turn takes on or ends, and its outcome where the steps are spent.
// It takes no closure: the formula that is searched is a named choice (document 01), so the question is handed on.
trait Search: Copy {
    // what its turns go by, besides the state
    type Rule: Copy;

    ghost next: { Self.Rule → (Float → Float) → Self → ℕ → ControlFlow Outcome Self };

    ghost spent: { Self → ℕ → Outcome };

    // One turn after n steps.
    fn advance(self, rule: Self::Rule, question: Question, n: u32) -> ControlFlow<Outcome, Self>
        requires { n + 1 < 2 ^ 32 }
        ensures { result ≡ next rule (residual_of question) self n };

    fn spent(self, n: u32) -> Outcome
        ensures { result ≡ spent self n };
}

impl Search for Bracket {
    type Rule = Width;

    ghost next = { λ rule f b n. bisecting.next (width_of rule) f b n };

    ghost spent = { bisecting.spent };

    #[tactic(auto, unfolding(search::specs::Bisection::next))]
    fn advance(self, rule: Width, question: Question, n: u32) -> ControlFlow<Outcome, Bracket> {
        if self.outside() {
            ControlFlow::Break(Outcome::Refused(Cause::PointOutside, 0.0, n, self))
        } else {
            self.turn(rule, question.residual(self.middle()), n + 1)
        }
    }

    #[tactic(auto, unfolding(search::specs::Bisection::spent))]
    fn spent(self, n: u32) -> Outcome {
        Outcome::Refused(Cause::StepsSpent, self.middle(), n, self)
    }
}

impl Search for Brent {
    type Rule = ();

    ghost next = { λ rule f s n. brenting.next f s n };

    ghost spent = { brenting.spent };

    #[tactic(auto, unfolding(search::specs::Brent::next))]
    fn advance(self, rule: (), question: Question, n: u32) -> ControlFlow<Outcome, Brent> {
        let aim = self.aim(n)?;
        aim.step(question.residual(aim.x), n + 1)
    }

    fn spent(self, n: u32) -> Outcome {
        Outcome::Refused(Cause::StepsSpent, self.b, n, self.bracket())
    }
}

// The run of a search from a state, of at most `limit` steps.
fn run<S: Search>(start: S, rule: S::Rule, question: Question, limit: u32) -> Outcome
    ensures { result ≡ run_from (S.next rule (residual_of question)) S.spent limit start 0 }
{
    let mut state = start;
    for n in 0..limit {
        match state.advance(rule, question, n) {
            ControlFlow::Break(o) => return o,
            ControlFlow::Continue(next) => state = next,
        }
    }
    state.spent(limit)
}

// Bisection from a bracket, by a narrow rule.
#[tactic(auto, unfolding(search::specs::Bisection::bisection))]
pub fn bisection(question: Question, rule: Width, start: Bracket, limit: u32) -> Outcome
    ensures { result ≡ bisection_of (width_of rule) (residual_of question) start limit }
{
    run(start, rule, question, limit)
}

// Brent's search from a bracket.
#[tactic(auto, unfolding(search::specs::Brent::zbrent))]
pub fn zbrent(question: Question, start: Bracket, limit: u32) -> Outcome
    ensures { result ≡ zbrent_of (residual_of question) start limit }
{
    run(Brent::start(start), (), question, limit)
}
