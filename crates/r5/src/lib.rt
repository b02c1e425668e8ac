// Region 5: steam from 1073.15 to 2273.15 K, up to 50 MPa, with no check of the range.
#![tactic(auto)]

pub mod region5_gfe;
pub mod region5_pT;
