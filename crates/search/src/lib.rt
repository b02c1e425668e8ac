// Document 01's two searches, one step at a time: they know no property, and are handed each residual.
#![tactic(auto)]

pub mod bisection;
pub mod bracket;
pub mod brent;
pub mod method;
