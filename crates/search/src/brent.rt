// Brent's search, after the Rust's zbrent: the state, where it aims, and the step.
ghost use Rattle.std.specs.Prelude.{◌≡◌};
ghost use Rattle.search.specs.Brent.{bracket_of, by_sign, start as start_of, sorted as sorted_of, tolerance as tolerance_of, half_width, ratio as ratio_of, turned as turned_of, halved as halved_of, accepted as accepted_of, lengths as lengths_of, next_point, with_lengths, aim_sorted, aim as aim_of, step as step_of};

use crate::bracket::{Bracket, Outcome, ordered, strictly_between};
use common::cause::Cause;
use float::sign::{abs, copysign, is_finite, min, same_sign};
use std::ops::ControlFlow;

// Three points with their residuals, and the two remembered step lengths. b is the last point; b and c are the bracket. Names and fields are those of the Rust's zbrent, flat as a bracket's.
#[derive(Clone, Copy)]
pub struct Brent {
    pub a: f64,
    pub b: f64,
    pub c: f64,
    pub fa: f64,
    pub fb: f64,
    pub fc: f64,
    pub d: f64,
    pub e: f64,
}

#[derive(Clone, Copy)]
pub struct Lengths {
    pub d: f64,
    pub e: f64,
}

#[derive(Clone, Copy)]
pub struct Ratio {
    pub p: f64,
    pub q: f64,
}

// Where to evaluate next, and the state that the residual there is for.
#[derive(Clone, Copy)]
pub struct Aim {
    pub state: Brent,
    pub x: f64,
}

fn tolerance(b: f64) -> f64
    ensures { result ≡ tolerance_of b }
{
    2.0 * 3.0e-8 * abs(b) + 0.5 * 1.0e-8
}

impl Ratio {
    // q with its sign changed where p is above zero.
    #[tactic(auto, unfolding(crate::specs::Brent::turned))]
    fn turned(self) -> f64
        ensures { result ≡ turned_of self }
    {
        if 0.0 < self.p { -self.q } else { self.q }
    }
}

impl Brent {
    // The last point and c, as a bracket.
    #[tactic(auto, unfolding(crate::specs::Brent::bracket_of))]
    pub fn bracket(self) -> Bracket
        ensures { result ≡ bracket_of self }
    {
        ordered(self.b, self.fb, self.c, self.fc)
    }

    // Where b's residual has c's strict sign, c becomes the previous point.
    fn by_sign(self) -> Brent
        ensures { result ≡ by_sign self }
    {
        if same_sign(self.fb, self.fc) {
            let d = self.b - self.a;
            Brent {
                c: self.a,
                fc: self.fa,
                d,
                e: d,
                ..self
            }
        } else {
            self
        }
    }

    // The Rust's literal start: b and c are the upper end.
    #[tactic(auto, unfolding(crate::specs::Brent::start))]
    pub fn start(w: Bracket) -> Brent
        ensures { result ≡ start_of w }
    {
        let d = w.x2 - w.x1;
        let s = Brent {
            a: w.x1,
            b: w.x2,
            c: w.x2,
            fa: w.r1,
            fb: w.r2,
            fc: w.r2,
            d,
            e: d,
        };
        s.by_sign()
    }

    // b is to be the end with the smaller residual.
    #[tactic(auto, unfolding(crate::specs::Brent::sorted))]
    fn sorted(self) -> Brent
        ensures { result ≡ sorted_of self }
    {
        if abs(self.fc) < abs(self.fb) {
            Brent {
                a: self.b,
                b: self.c,
                c: self.b,
                fa: self.fb,
                fb: self.fc,
                fc: self.fb,
                ..self
            }
        } else {
            self
        }
    }

    fn half_width(self) -> f64
        ensures { result ≡ half_width self }
    {
        0.5 * (self.c - self.b)
    }

    // The interpolated step as a fraction: by two points or by three.
    fn ratio(self) -> Ratio
        ensures { result ≡ ratio_of self }
    {
        let xm = self.half_width();
        let s = self.fb / self.fa;
        if self.a == self.c {
            Ratio {
                p: 2.0 * xm * s,
                q: 1.0 - s,
            }
        } else {
            let q = self.fa / self.fc;
            let r = self.fb / self.fc;
            Ratio {
                p: s * (2.0 * xm * q * (q - r) - (self.b - self.a) * (r - 1.0)),
                q: (q - 1.0) * (r - 1.0) * (s - 1.0),
            }
        }
    }

    fn halved(self) -> Lengths
        ensures { result ≡ halved_of self }
    {
        let xm = self.half_width();
        Lengths { d: xm, e: xm }
    }

    // The interpolation where it falls well inside and goes fast enough, else half the width.
    fn accepted(self, w: Ratio) -> Lengths
        ensures { result ≡ accepted_of self w }
    {
        let xm = self.half_width();
        let p = abs(w.p);
        let q = w.turned();
        let min1 = 3.0 * xm * q - abs(tolerance(self.b) * q);
        let min2 = abs(self.e * q);
        if 2.0 * p < min(min1, min2) {
            Lengths {
                d: p / q,
                e: self.d,
            }
        } else {
            self.halved()
        }
    }

    #[tactic(auto, unfolding(crate::specs::Brent::lengths))]
    fn lengths(self) -> Lengths
        ensures { result ≡ lengths_of self }
    {
        let xm = self.half_width();
        if abs(xm) < abs(self.e) && self.fa != self.fb {
            self.accepted(self.ratio())
        } else {
            self.halved()
        }
    }

    #[tactic(auto, unfolding(crate::specs::Brent::next_point))]
    fn next_point(self, l: Lengths) -> f64
        ensures { result ≡ next_point self l }
    {
        let t = tolerance(self.b);
        if t < abs(l.d) {
            self.b + l.d
        } else {
            self.b + copysign(t, self.half_width())
        }
    }

    fn with_lengths(self, l: Lengths) -> Brent
        ensures { result ≡ with_lengths self l }
    {
        Brent {
            d: l.d,
            e: l.e,
            ..self
        }
    }

    // Where a sorted state goes on, after n steps.
    fn aim_sorted(self, n: u32) -> ControlFlow<Outcome, Aim>
        ensures { result ≡ aim_sorted self n }
    {
        if self.fb == 0.0 {
            return ControlFlow::Break(Outcome::SmallResidual(self.b, n, self.bracket()));
        }
        if abs(self.half_width()) <= tolerance(self.b) {
            return ControlFlow::Break(Outcome::Narrow(self.b, n, self.bracket()));
        }
        let l = self.lengths();
        let x = self.next_point(l);
        if strictly_between(x, self.b, self.c) {
            let state = self.with_lengths(l);
            return ControlFlow::Continue(Aim { state, x });
        }
        let x = exact::middle(self.b, self.c);
        if strictly_between(x, self.b, self.c) {
            let state = self.with_lengths(self.halved());
            return ControlFlow::Continue(Aim { state, x });
        }
        ControlFlow::Break(Outcome::Refused(Cause::PointOutside, 0.0, n, self.bracket()))
    }

    #[tactic(auto, unfolding(crate::specs::Brent::aim))]
    pub fn aim(self, n: u32) -> ControlFlow<Outcome, Aim>
        ensures { result ≡ aim_of self n }
    {
        self.sorted().aim_sorted(n)
    }
}

impl Aim {
    // The next state from the residual at x; `taken` counts that evaluation.
    pub fn step(self, residual: f64, taken: u32) -> ControlFlow<Outcome, Brent>
        ensures { result ≡ step_of self residual taken }
    {
        let s = self.state;
        if is_finite(residual) {
            let next = Brent {
                a: s.b,
                b: self.x,
                fa: s.fb,
                fb: residual,
                ..s
            };
            ControlFlow::Continue(next.by_sign())
        } else {
            ControlFlow::Break(Outcome::Refused(Cause::ResidualNotFinite, 0.0, taken, s.bracket()))
        }
    }
}
