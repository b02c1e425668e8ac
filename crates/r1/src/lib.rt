// Region 1: liquid water up to 623.15 K and 100 MPa, with no check of the range.
#![tactic(auto)]

pub mod region1_gfe;
pub mod region1_pT;
