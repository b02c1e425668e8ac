// An answer as two arrays: its columns that are whole numbers, and those that are doubles. The last place of each is 0. Choices are numbers here, for the C interface.
ghost use Rattle.std.specs.Prelude.{◌≡◌};
ghost use Rattle.vessel.specs.Answer.{columns};
ghost use Rattle.climboat.specs.Record.{mark_number, four as four_of, told as told_of, fractions as fractions_of, numbers as numbers_of, doubles as doubles_of};

use search::bracket::Bracket;
use vessel::answer::Answer;
use vessel::asked::{Asked, property_number, region_number};

// Why an answer is what it is; a refusal has no reason.
#[derive(Clone, Copy)]
enum Reason {
    None = 0,
    Plain = 1,
    ExactEnd = 2,
    SmallResidual = 3,
    Narrow = 4,
}

// Where the (p,T) rule has a found value; an answer that no search found has no mark.
#[derive(Clone, Copy)]
enum Mark {
    None = 0,
    Inside = 1,
    Outside = 2,
}

#[tactic(auto, unfolding(crate::specs::Record::mark_number))]
fn mark_number(inside: bool) -> u32
    ensures { result ≡ mark_number inside }
{
    if inside {
        Mark::Inside as u32
    } else {
        Mark::Outside as u32
    }
}

// The first four numbers: number, reason, steps, mark.
#[derive(Clone, Copy)]
struct First {
    number: u32,
    reason: u32,
    steps: u32,
    mark: u32,
}

fn four(number: u32, reason: u32, steps: u32, mark: u32) -> First
    ensures { result ≡ four_of number reason steps mark }
{
    First {
        number,
        reason,
        steps,
        mark,
    }
}

#[tactic(auto, unfolding(crate::specs::Record::mark_number))]
fn told(answer: Answer) -> First
    ensures { result ≡ told_of answer }
{
    match answer {
        Answer::Value(asked, x) => four(0, Reason::Plain as u32, 0, Mark::None as u32),
        Answer::ExactEnd(asked, f) => four(
            0,
            Reason::ExactEnd as u32,
            f.steps,
            mark_number(f.inside),
        ),
        Answer::SmallResidual(asked, f) => four(
            0,
            Reason::SmallResidual as u32,
            f.steps,
            mark_number(f.inside),
        ),
        Answer::Narrow(asked, f) => four(0, Reason::Narrow as u32, f.steps, mark_number(f.inside)),
        Answer::Refused(asked, r) => four(
            r.cause.number(),
            Reason::None as u32,
            r.steps,
            Mark::None as u32,
        ),
    }
}

fn fractions(value: f64, b: Bracket, asked: Asked) -> [f64; 8]
    ensures { result ≡ fractions_of value b.x1 b.x2 b.r1 b.r2 asked }
{
    [
        value,
        b.x1,
        b.x2,
        b.r1,
        b.r2,
        asked.first,
        asked.second,
        0.0,
    ]
}

// What the answer is of.
fn asked(answer: Answer) -> Asked
    ensures { result ≡ (columns answer).asked }
{
    match answer {
        Answer::Value(asked, _)
        | Answer::ExactEnd(asked, _)
        | Answer::SmallResidual(asked, _)
        | Answer::Narrow(asked, _)
        | Answer::Refused(asked, _) => asked,
    }
}

// Number, reason, steps, mark, region, kind, property, 0. What it is of is taken out first, so that its numbers are looked up in one place. It is short, so that the compiler takes it into every call.
#[tactic(auto, unfolding(crate::specs::Record::numbers))]
pub fn numbers(answer: Answer) -> [u32; 8]
    ensures { result ≡ numbers_of answer }
{
    let first = told(answer);
    let of = asked(answer);
    [
        first.number,
        first.reason,
        first.steps,
        first.mark,
        region_number(of.region),
        of.kind.number(),
        property_number(of.property),
        0,
    ]
}

// Value, lower end, upper end, the residuals there, first input, second input, 0.
#[tactic(auto, unfolding(crate::specs::Record::doubles))]
pub fn doubles(answer: Answer) -> [f64; 8]
    ensures { result ≡ doubles_of answer }
{
    match answer {
        Answer::Value(asked, x) => fractions(x, Bracket::none(), asked),
        Answer::ExactEnd(asked, f) | Answer::SmallResidual(asked, f) | Answer::Narrow(asked, f) =>
            fractions(f.value, f.bracket, asked),
        Answer::Refused(asked, r) => fractions(r.value, r.bracket, asked),
    }
}

// An answer into the two lent arrays. It is marked to be taken into every call: as a call of its own it costs each 17 ns.
#[inline(always)]
pub fn write(answer: Answer, numbers: &mut [u32; 8], doubles: &mut [f64; 8])
    ensures numbers_after { numbers.new ≡ numbers_of answer }
    ensures doubles_after { doubles.new ≡ doubles_of answer }
{
    *numbers = self::numbers(answer);
    *doubles = self::doubles(answer);
}
