// Helpers on doubles: what the Rust takes from its standard library, each with one stated result for every double.
#![tactic(auto)]

pub mod log;
pub mod power;
pub mod root;
pub mod sign;
