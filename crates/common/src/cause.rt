// Why a call is refused: document 01's table, and the two numbers that it does not have.
ghost use Rattle.std.specs.Prelude.{◌≡◌};
ghost use Rattle.common.specs.Causes.{number_of};

// Each cause is its number.
#[derive(Clone, Copy, Debug, PartialEq, Eq)]
pub enum Cause {
    InputNotFinite = 1,
    TemperatureOutOfRange = 2,
    PressureOutOfRange = 3,
    VolumeNotAboveZero = 4,
    EndsMeet = 5,
    ResidualNotFinite = 6,
    SameSign = 7,
    StepsSpent = 8,
    ResultNotFinite = 9,
    PointOutside = 10,
    LimitTooLarge = 11,
    // the four lengths of a log differ, or exceed the longest log's
    RunsUnfit = 13,
    // a number of the C interface that names no region or no property
    NamesNothing = 21,
}

impl Cause {
    // A method and no From: it is one cast.
    pub fn number(self) -> u32
        ensures { result ≡ number_of self }
    {
        self as u32
    }
}
