// How results are written: a double as the sixteen digits of its bits, an answer with all its columns.
#![tactic(auto)]

use search::bracket::Bracket;
use std::{fmt, io};
use vessel::answer::{Answer, Found};
use vessel::asked::{Asked, property_number, region_number};

// A double as the digits of its bits. Bits tell every double apart, and a NaN has none of its own.
#[derive(Clone, Copy)]
pub struct Bits(pub f64);

impl fmt::Display for Bits {
    fn fmt<W: fmt::Write>(&self, f: &mut fmt::Formatter<W>) -> fmt::Result {
        let x = self.0;
        if x.is_nan() {
            write!(f, "NaN")
        } else {
            let bits = x.to_bits();
            write!(f, "{bits:016x}")
        }
    }
}

// The steps that were taken, and the last bracket.
#[derive(Clone, Copy)]
struct Steps(u32, Bracket);

impl fmt::Display for Steps {
    fn fmt<W: fmt::Write>(&self, f: &mut fmt::Formatter<W>) -> fmt::Result {
        let Steps(n, bracket) = *self;
        write!(
            f,
            "steps {n}, bracket {} {}, residuals {} {}",
            Bits(bracket.x1),
            Bits(bracket.x2),
            Bits(bracket.r1),
            Bits(bracket.r2)
        )
    }
}

// What a call is of.
#[derive(Clone, Copy)]
struct Of(Asked);

impl fmt::Display for Of {
    fn fmt<W: fmt::Write>(&self, f: &mut fmt::Formatter<W>) -> fmt::Result {
        let asked = self.0;
        let kind = asked.kind.number();
        let region = region_number(asked.region);
        let property = property_number(asked.property);
        write!(
            f,
            "kind {kind}, region {region}, property {property}, inputs {} {}",
            Bits(asked.first),
            Bits(asked.second)
        )
    }
}

// A value that a search found, and whether it lies inside.
#[derive(Clone, Copy)]
struct At(Found);

impl fmt::Display for At {
    fn fmt<W: fmt::Write>(&self, f: &mut fmt::Formatter<W>) -> fmt::Result {
        let found = self.0;
        let mark = if found.inside { "inside" } else { "outside" };
        let steps = Steps(found.steps, found.bracket);
        write!(f, "{}, {steps}, {mark}", Bits(found.value))
    }
}

// An answer with all its columns, as they follow its name.
#[derive(Clone, Copy)]
pub struct Columns(pub Answer);

impl fmt::Display for Columns {
    fn fmt<W: fmt::Write>(&self, f: &mut fmt::Formatter<W>) -> fmt::Result {
        match self.0 {
            Answer::Value(asked, x) => write!(f, "value {}, {}", Bits(x), Of(asked)),
            Answer::ExactEnd(asked, found) => write!(f, "exact end {}, {}", At(found), Of(asked)),
            Answer::SmallResidual(asked, found) => {
                write!(f, "small residual {}, {}", At(found), Of(asked))
            }
            Answer::Narrow(asked, found) => write!(f, "narrow {}, {}", At(found), Of(asked)),
            Answer::Refused(asked, r) => {
                let number = r.cause.number();
                let steps = Steps(r.steps, r.bracket);
                write!(
                    f,
                    "refused {number}, value {}, {steps}, {}",
                    Bits(r.value),
                    Of(asked)
                )
            }
        }
    }
}

// A double with its name.
pub fn tell(rt: &impl Print, name: &str, x: f64) -> io::Result<()> {
    println!(rt; "{name} {}", Bits(x))
}

// An answer with its name.
pub fn answer(rt: &impl Print, name: &str, answer: Answer) -> io::Result<()> {
    println!(rt; "{name}: {}", Columns(answer))
}
