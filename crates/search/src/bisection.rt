// Bisection: the middle, the tests after its residual is known, and the step.
ghost use Rattle.std.specs.Prelude.{◌≡◌};
ghost use Rattle.search.specs.Bisection.{middle_of, outside as outside_of, step as step_of, width_of, narrow as narrow_of, turn as turn_of};

use crate::bracket::{Bracket, Outcome};
use common::cause::Cause;
use float::sign::{abs, is_finite, same_sign};
use std::ops::ControlFlow;

// The narrow rule, a named choice: the width below which a bracket is narrow.
#[derive(Clone, Copy)]
pub enum Width {
    // 1.0e-6
    Millionth,
    // 1.0e-6 times the upper end
    MillionthOfUpper,
}

impl Bracket {
    pub fn middle(self) -> f64
        ensures { result ≡ middle_of self }
    {
        exact::middle(self.x1, self.x2)
    }

    // Whether the middle lies below x1 or above x2.
    #[tactic(auto, unfolding(crate::specs::Bisection::outside))]
    pub fn outside(self) -> bool
        ensures { result ≡ outside_of self }
    {
        let m = self.middle();
        m < self.x1 || self.x2 < m
    }

    // The end whose residual has the middle's sign is replaced.
    pub fn step(self, residual: f64) -> Bracket
        ensures { result ≡ step_of self residual }
    {
        let m = self.middle();
        if same_sign(residual, self.r1) {
            Bracket {
                x1: m,
                r1: residual,
                ..self
            }
        } else {
            Bracket {
                x2: m,
                r2: residual,
                ..self
            }
        }
    }

    // What the narrow rule asks of this bracket.
    fn width(self, rule: Width) -> f64
        ensures { result ≡ width_of rule self }
    {
        match rule {
            Width::Millionth => 1.0e-6,
            Width::MillionthOfUpper => 1.0e-6 * self.x2,
        }
    }

    // Whether the width before the step is below what the rule asks.
    #[tactic(auto, unfolding(crate::specs::Bisection::narrow))]
    pub fn narrow(self, rule: Width) -> bool
        ensures { result ≡ narrow_of (width_of rule) self }
    {
        abs(self.x1 - self.x2) < self.width(rule)
    }

    // The tests once the residual at the middle is known, and the next bracket; `taken` counts that evaluation.
    pub fn turn(self, rule: Width, residual: f64, taken: u32) -> ControlFlow<Outcome, Bracket>
        ensures { result ≡ turn_of (width_of rule) self residual taken }
    {
        if !is_finite(residual) {
            ControlFlow::Break(Outcome::Refused(Cause::ResidualNotFinite, 0.0, taken, self))
        } else if abs(residual) < 1.0e-8 {
            ControlFlow::Break(Outcome::SmallResidual(self.middle(), taken, self))
        } else if self.narrow(rule) {
            ControlFlow::Break(Outcome::Narrow(self.middle(), taken, self))
        } else {
            ControlFlow::Continue(self.step(residual))
        }
    }
}
