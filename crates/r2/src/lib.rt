// Region 2: steam up to 1073.15 K and 100 MPa, with no check of the range.
#![tactic(auto)]

pub mod region2_gfe;
pub mod region2_pT;
