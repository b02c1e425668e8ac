// The C interface: the vessel's calls with numbers for their choices, each writing its answer as a record into two lent arrays. The crate climboat_c gives each its symbol.
#![tactic(auto)]

ghost use Rattle.std.specs.Prelude.{◌≡◌};
ghost use Rattle.vessel.specs.Calls.{saturation_pressure, saturation_temperature, B23_pressure, B23_temperature};
ghost use Rattle.vessel.specs.Log.{lent};
ghost use Rattle.vessel.specs.Range.{number as number_of};
ghost use Rattle.climboat.specs.Calls.{pT, pT_log, pv2T, Tv2p, Th2p, Ts2p};
ghost use Rattle.climboat.specs.Record.{numbers as numbers_of, doubles as doubles_of};

use vessel::range::number;

pub mod calls;
pub mod record;

// This call and the eight below that end in _columns differ in what they write alone: each is a call of the C interface.
// A property by (p,T).
pub fn climboat_pT_columns(
    region: u32,
    property: u32,
    p: f64,
    T: f64,
    numbers: &mut [u32; 8],
    doubles: &mut [f64; 8],
)
    ensures numbers_after { numbers.new ≡ numbers_of (pT region property p T) }
    ensures doubles_after { doubles.new ≡ doubles_of (pT region property p T) }
{
    record::write(calls::pT(region, property, p, T), numbers, doubles);
}

// A property at every (p,T) of a log: each run is a pointer and a length.
pub fn climboat_pT_log_runs(
    region: u32,
    property: u32,
    p: &[f64],
    T: &[f64],
    values: &mut [f64],
    numbers: &mut [u32],
) -> u32
    ensures value { result ≡ number_of (pT_log region property (lent p.now T.now values.old numbers.old)).back }
    ensures values_after { values.new ≡ (pT_log region property (lent p.now T.now values.old numbers.old)).values }
    ensures numbers_after { numbers.new ≡ (pT_log region property (lent p.now T.now values.old numbers.old)).numbers }
{
    number(calls::pT_log(region, property, p, T, values, numbers))
}

// The pressure of the saturation line at T.
pub fn climboat_saturation_pressure_columns(T: f64, numbers: &mut [u32; 8], doubles: &mut [f64; 8])
    ensures numbers_after { numbers.new ≡ numbers_of (saturation_pressure T) }
    ensures doubles_after { doubles.new ≡ doubles_of (saturation_pressure T) }
{
    record::write(vessel::saturation::saturation_pressure(T), numbers, doubles);
}

// The temperature of the saturation line at p.
pub fn climboat_saturation_temperature_columns(
    p: f64,
    numbers: &mut [u32; 8],
    doubles: &mut [f64; 8],
)
    ensures numbers_after { numbers.new ≡ numbers_of (saturation_temperature p) }
    ensures doubles_after { doubles.new ≡ doubles_of (saturation_temperature p) }
{
    record::write(
        vessel::saturation::saturation_temperature(p),
        numbers,
        doubles,
    );
}

// The pressure of B23 at T.
pub fn climboat_B23_pressure_columns(T: f64, numbers: &mut [u32; 8], doubles: &mut [f64; 8])
    ensures numbers_after { numbers.new ≡ numbers_of (B23_pressure T) }
    ensures doubles_after { doubles.new ≡ doubles_of (B23_pressure T) }
{
    record::write(vessel::saturation::B23_pressure(T), numbers, doubles);
}

// The temperature of B23 at p.
pub fn climboat_B23_temperature_columns(p: f64, numbers: &mut [u32; 8], doubles: &mut [f64; 8])
    ensures numbers_after { numbers.new ≡ numbers_of (B23_temperature p) }
    ensures doubles_after { doubles.new ≡ doubles_of (B23_temperature p) }
{
    record::write(vessel::saturation::B23_temperature(p), numbers, doubles);
}

// (p,v) to T.
pub fn climboat_pv2T_columns(
    region: u32,
    p: f64,
    v: f64,
    limit: u32,
    numbers: &mut [u32; 8],
    doubles: &mut [f64; 8],
)
    ensures numbers_after { numbers.new ≡ numbers_of (pv2T region p v limit) }
    ensures doubles_after { doubles.new ≡ doubles_of (pv2T region p v limit) }
{
    record::write(calls::pv2T(region, p, v, limit), numbers, doubles);
}

// (T,v) to p.
pub fn climboat_Tv2p_columns(
    region: u32,
    T: f64,
    v: f64,
    limit: u32,
    numbers: &mut [u32; 8],
    doubles: &mut [f64; 8],
)
    ensures numbers_after { numbers.new ≡ numbers_of (Tv2p region T v limit) }
    ensures doubles_after { doubles.new ≡ doubles_of (Tv2p region T v limit) }
{
    record::write(calls::Tv2p(region, T, v, limit), numbers, doubles);
}

// (T,h) to p.
pub fn climboat_Th2p_columns(
    region: u32,
    T: f64,
    h: f64,
    limit: u32,
    numbers: &mut [u32; 8],
    doubles: &mut [f64; 8],
)
    ensures numbers_after { numbers.new ≡ numbers_of (Th2p region T h limit) }
    ensures doubles_after { doubles.new ≡ doubles_of (Th2p region T h limit) }
{
    record::write(calls::Th2p(region, T, h, limit), numbers, doubles);
}

// (T,s) to p.
pub fn climboat_Ts2p_columns(
    region: u32,
    T: f64,
    s: f64,
    limit: u32,
    numbers: &mut [u32; 8],
    doubles: &mut [f64; 8],
)
    ensures numbers_after { numbers.new ≡ numbers_of (Ts2p region T s limit) }
    ensures doubles_after { doubles.new ≡ doubles_of (Ts2p region T s limit) }
{
    record::write(calls::Ts2p(region, T, s, limit), numbers, doubles);
}
