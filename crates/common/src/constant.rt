// The numbers of the Rust's common/constant.rs that are used here. INVALID_VALUE is gone: what was -9999 is a refusal with its cause.

// the specific gas constant in kJ/(kg K)
pub const RGAS_WATER: f64 = 0.461526;

pub const T_MIN: f64 = 273.15;

pub const T_MAX1: f64 = 623.15;

pub const T_MAX2: f64 = 1073.15;

pub const T_MAX3: f64 = 863.15;

pub const T_MAX4: f64 = 647.096;

pub const T_MAX5: f64 = 2273.15;

pub const P_MIN1: f64 = 0.000611212677444;

pub const P_MIN2: f64 = 1.0e-8;

pub const P_MIN3: f64 = 16.5291643;

pub const P_MIN4: f64 = 0.000611212677;

pub const P_MAX: f64 = 100.0;

pub const P_MAX4: f64 = 22.064;

pub const P_MAX5: f64 = 50.0;
