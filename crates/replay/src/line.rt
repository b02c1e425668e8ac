// What a line asks, by the numbers of the C interface.
use climboat::calls::{Th2p, Ts2p, Tv2p, pT, pv2T};
use digits::{double, number_of};
use vessel::answer::Answer;
use vessel::asked::Kind;
use vessel::saturation::{
    B23_pressure, B23_temperature, saturation_pressure, saturation_temperature,
};

// A field that its call does not use is any digits.
#[derive(Clone, Copy)]
struct Input {
    call: u32,
    region: u32,
    property: u32,
    limit: u32,
    first: f64,
    second: f64,
}

// The number in the next field, which is so wide and ends in this byte. The rest begins behind it.
fn field(rest: &mut &[u8], width: usize, end: u8) -> Option<u64> {
    let (digits, behind) = rest.split_at_checked(width)?;
    let (last, behind) = behind.split_first()?;
    if *last != end {
        return None;
    }
    *rest = behind;
    number_of(digits)
}

fn whole(rest: &mut &[u8], width: usize) -> Option<u32> {
    u32::try_from(field(rest, width, b' ')?).ok()
}

impl Input {
    fn read(line: &[u8; 47]) -> Option<Input> {
        let mut rest = &line[..];
        Some(Input {
            call: whole(&mut rest, 2)?,
            region: whole(&mut rest, 1)?,
            property: whole(&mut rest, 1)?,
            limit: whole(&mut rest, 5)?,
            first: double(field(&mut rest, 16, b' ')?),
            second: double(field(&mut rest, 16, b'\n')?),
        })
    }

    // What the vessel answers, where the number names a call.
    fn answer(self) -> Option<Answer> {
        let answer = match Kind::try_from(self.call).ok()? {
            Kind::PT => pT(self.region, self.property, self.first, self.second),
            Kind::SaturationPressure => saturation_pressure(self.first),
            Kind::SaturationTemperature => saturation_temperature(self.first),
            Kind::B23Pressure => B23_pressure(self.first),
            Kind::B23Temperature => B23_temperature(self.first),
            Kind::Pv => pv2T(self.region, self.first, self.second, self.limit),
            Kind::Tv => Tv2p(self.region, self.first, self.second, self.limit),
            Kind::Th => Th2p(self.region, self.first, self.second, self.limit),
            Kind::Ts => Ts2p(self.region, self.first, self.second, self.limit),
        };
        Some(answer)
    }
}

// What the vessel answers to a line, where that is an input.
pub fn answered(line: &[u8; 47]) -> Option<Answer> {
    Input::read(line)?.answer()
}
