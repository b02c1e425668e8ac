// A whole log at once: the number and the value of the call by (p,T) at every place, into two lent runs.
ghost use Rattle.std.specs.Prelude.{◌≡◌};
ghost use Rattle.vessel.specs.Calls.{property as property_of};
ghost use Rattle.vessel.specs.Log.{reading_of, together as together_of, lent, log as log_of};

use crate::property::{Property, value};
use common::cause::Cause;
use pairs::row::Region;

// The longest log; a longer one is refused.
pub const LONGEST_LOG: usize = 4096;

// The columns number and value of the call by (p,T), side by side as the C interface's two runs have them: where it refuses the value is 0.
#[derive(Clone, Copy)]
struct Reading {
    number: u32,
    value: f64,
}

// What the call by (p,T) gives, without what it is of.
#[tactic(auto, unfolding(crate::specs::Calls::property, crate::specs::Answer::direct))]
fn number_and_value(region: Region, property: Property, p: f64, T: f64) -> Reading
    ensures { result ≡ reading_of (property_of region property p T) }
{
    match value(region, property, p, T) {
        Ok(x) => Reading {
            number: 0,
            value: x,
        },
        Err(cause) => Reading {
            number: cause.number(),
            value: 0.0,
        },
    }
}

// Whether the four lengths are one, and not above the longest log's.
fn together(p: usize, T: usize, values: usize, numbers: usize) -> bool
    ensures { result ≡ together_of p T values numbers }
{
    p <= LONGEST_LOG && [T, values, numbers] == [p; 3]
}

// A property of the named region at every (p,T) of a log. Where the lengths of the runs differ or exceed the longest log's, nothing is written. The
// four runs are apart, as the C interface lends them.
pub fn pT_log(
    region: Region,
    property: Property,
    p: &[f64],
    T: &[f64],
    values: &mut [f64],
    numbers: &mut [u32],
) -> Result<(), Cause>
    ensures value { result ≡ (log_of region property (lent p.now T.now values.old numbers.old)).back }
    ensures values_after { values.new ≡ (log_of region property (lent p.now T.now values.old numbers.old)).values }
    ensures numbers_after { numbers.new ≡ (log_of region property (lent p.now T.now values.old numbers.old)).numbers }
{
    if !together(p.len(), T.len(), values.len(), numbers.len()) {
        return Err(Cause::RunsUnfit);
    }
    // By place: nothing is known of what a loop over a zip of `iter_mut` wrote.
    for place in 0..p.len() {
        let reading = number_and_value(region, property, p[place], T[place]);
        values[place] = reading.value;
        numbers[place] = reading.number;
    }
    Ok(())
}
