// A bracket with its residuals, what a search comes to, and how it opens.
ghost use Rattle.std.specs.Prelude.{◌≡◌};
ghost use Rattle.search.specs.Bracket.{no_bracket, ordered as ordered_of, strictly_between};
ghost use Rattle.search.specs.Search.{refused as refused_of, opened as opened_of};

use common::cause::Cause;
use float::sign::{is_finite, same_sign};
use std::ops::ControlFlow;

// Two ends, and the residual at each. The fields stay flat, and so do the doubles that one is made of: docs/DECISIONS.md, the list of forms by place.
#[derive(Clone, Copy)]
pub struct Bracket {
    pub x1: f64,
    pub x2: f64,
    pub r1: f64,
    pub r2: f64,
}

// An answer with its reason, or a refusal with its cause: each with the bracket at its test, lower end first.
// It stays an enum of its own: docs/DECISIONS.md, the list of forms by place.
#[derive(Clone, Copy)]
pub enum Outcome {
    // value, bracket
    ExactEnd(f64, Bracket),
    // value, steps, bracket
    SmallResidual(f64, u32, Bracket),
    Narrow(f64, u32, Bracket),
    // cause, value (the last point where the steps are spent, else 0), steps, bracket
    Refused(Cause, f64, u32, Bracket),
}

// Two points with their residuals, the lower one first.
#[tactic(auto, unfolding(crate::specs::Bracket::ordered))]
pub fn ordered(b: f64, fb: f64, c: f64, fc: f64) -> Bracket
    ensures { result ≡ ordered_of b fb c fc }
{
    if b < c {
        Bracket {
            x1: b,
            x2: c,
            r1: fb,
            r2: fc,
        }
    } else {
        Bracket {
            x1: c,
            x2: b,
            r1: fc,
            r2: fb,
        }
    }
}

// Whether x lies strictly between b and c, whichever is the lower.
#[tactic(auto, unfolding(crate::specs::Bracket::strictly_between))]
pub fn strictly_between(x: f64, b: f64, c: f64) -> bool
    ensures { result ≡ strictly_between x b c }
{
    if b < x { x < c } else { c < x && x < b }
}

// A refusal that has no bracket to report.
pub fn refused(cause: Cause) -> Outcome
    ensures { result ≡ refused_of cause }
{
    Outcome::Refused(cause, 0.0, 0, Bracket::none())
}

impl Bracket {
    // What is reported where there is no bracket.
    pub fn none() -> Bracket
        ensures { result ≡ no_bracket }
    {
        Bracket {
            x1: 0.0,
            x2: 0.0,
            r1: 0.0,
            r2: 0.0,
        }
    }

    // Both residuals are known: one that is not finite, an end that is an exact answer, and two of the same sign close the search.
    #[tactic(auto, unfolding(crate::specs::Search::opened))]
    pub fn opened(self) -> ControlFlow<Outcome, Bracket>
        ensures { result ≡ opened_of self }
    {
        if !(is_finite(self.r1) && is_finite(self.r2)) {
            ControlFlow::Break(Outcome::Refused(Cause::ResidualNotFinite, 0.0, 0, self))
        } else if self.r1 == 0.0 {
            ControlFlow::Break(Outcome::ExactEnd(self.x1, self))
        } else if self.r2 == 0.0 {
            ControlFlow::Break(Outcome::ExactEnd(self.x2, self))
        } else if same_sign(self.r1, self.r2) {
            ControlFlow::Break(refused(Cause::SameSign))
        } else {
            ControlFlow::Continue(self)
        }
    }
}
