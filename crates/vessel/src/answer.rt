// What a call answers: a value with its reason, or a refusal with its cause and bracket, each with what the call is of.
ghost use Rattle.std.specs.Prelude.{◌≡◌};
ghost use Rattle.vessel.specs.Answer.{refused as refused_of, direct as direct_of, residual_told, bracket_told, found_at, answered as answered_of, value_of};

use crate::asked::Asked;
use common::cause::Cause;
use float::sign::is_finite;
use search::bracket::{Bracket, Outcome};

// A value that a search found: its steps, the bracket at its test, and whether the (p,T) rule has it inside.
#[derive(Clone, Copy)]
pub struct Found {
    pub value: f64,
    pub steps: u32,
    pub bracket: Bracket,
    pub inside: bool,
}

// Why, the last point where the steps are spent and else 0, the steps taken and the last bracket.
#[derive(Clone, Copy)]
pub struct Refusal {
    pub cause: Cause,
    pub value: f64,
    pub steps: u32,
    pub bracket: Bracket,
}

// It stays an enum of its own: docs/DECISIONS.md, the list of forms by place.
#[derive(Clone, Copy)]
pub enum Answer {
    // of a call that does not search
    Value(Asked, f64),
    ExactEnd(Asked, Found),
    SmallResidual(Asked, Found),
    Narrow(Asked, Found),
    Refused(Asked, Refusal),
}

// A refusal without steps.
pub fn refused(asked: Asked, cause: Cause) -> Answer
    ensures { result ≡ refused_of asked cause }
{
    Answer::Refused(
        asked,
        Refusal {
            cause,
            value: 0.0,
            steps: 0,
            bracket: Bracket::none(),
        },
    )
}

// What is found without a search, as an answer.
#[tactic(auto, unfolding(crate::specs::Answer::direct))]
pub fn direct(asked: Asked, found: Result<f64, Cause>) -> Answer
    ensures { result ≡ direct_of asked found }
{
    match found {
        Ok(x) => Answer::Value(asked, x),
        Err(cause) => refused(asked, cause),
    }
}

// The value that an outcome carries.
#[tactic(auto, unfolding(crate::specs::Answer::value_of))]
pub fn value(outcome: Outcome) -> f64
    ensures { result ≡ value_of outcome }
{
    match outcome {
        Outcome::ExactEnd(x, _)
        | Outcome::SmallResidual(x, _, _)
        | Outcome::Narrow(x, _, _)
        | Outcome::Refused(_, x, _, _) => x,
    }
}

fn found_at(value: f64, steps: u32, bracket: Bracket, inside: bool) -> Found
    ensures { result ≡ found_at value steps bracket inside }
{
    Found {
        value,
        steps,
        bracket,
        inside,
    }
}

// A residual as a refusal tells it: where one is not finite, it is given as 0.
#[tactic(auto, unfolding(crate::specs::Answer::residual_told))]
fn residual_told(cause: Cause, residual: f64) -> f64
    ensures { result ≡ residual_told cause residual }
{
    if cause == Cause::ResidualNotFinite && !is_finite(residual) {
        0.0
    } else {
        residual
    }
}

// The bracket that a refusal reports.
fn bracket_told(cause: Cause, bracket: Bracket) -> Bracket
    ensures { result ≡ bracket_told cause bracket }
{
    Bracket {
        x1: bracket.x1,
        x2: bracket.x2,
        r1: residual_told(cause, bracket.r1),
        r2: residual_told(cause, bracket.r2),
    }
}

// An outcome of a search as an answer, with the mark of its value.
#[tactic(auto, unfolding(crate::specs::Answer::answered))]
pub fn answered(asked: Asked, outcome: Outcome, mark: bool) -> Answer
    ensures { result ≡ answered_of asked outcome mark }
{
    match outcome {
        Outcome::ExactEnd(x, b) => Answer::ExactEnd(asked, found_at(x, 0, b, mark)),
        Outcome::SmallResidual(x, n, b) => Answer::SmallResidual(asked, found_at(x, n, b, mark)),
        Outcome::Narrow(x, n, b) => Answer::Narrow(asked, found_at(x, n, b, mark)),
        Outcome::Refused(k, x, n, b) => Answer::Refused(
            asked,
            Refusal {
                cause: k,
                value: x,
                steps: n,
                bracket: bracket_told(k, b),
            },
        ),
    }
}
