// A question: a pair with its two inputs, and the residual that its search brings to zero.
ghost use Rattle.std.specs.Prelude.{◌≡◌};
ghost use Rattle.pairs.specs.Residual.{state_of, residual as residual_of};

use crate::row::Pair;
use search::method::Method;

#[derive(Clone, Copy)]
pub struct Question {
    pub pair: Pair,
    pub fixed: f64,
    pub target: f64,
}

#[derive(Clone, Copy)]
pub struct State {
    pub p: f64,
    pub T: f64,
}

impl Question {
    // The state at x: where p is fixed x is T, and where T is fixed x is p.
    pub fn state(self, x: f64) -> State
        ensures { result ≡ state_of self x }
    {
        if self.pair.range().of_pressures() {
            return State {
                p: self.fixed,
                T: x,
            };
        }
        State {
            p: x,
            T: self.fixed,
        }
    }

    pub fn residual(self, x: f64) -> f64
        ensures { result ≡ residual_of self x }
    {
        let pair = self.pair;
        let state = self.state(x);
        let found = pair.formula(state.p, state.T);
        let method = pair.method();
        match method {
            Method::ByBisection(_) => (self.target - found) / self.target,
            Method::ByBrent => self.target - found,
        }
    }
}
