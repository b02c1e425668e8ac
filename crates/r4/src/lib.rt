// Region 4, the saturation line, and the ends that regions 1 and 2 have along it and along B23.
#![tactic(auto)]

pub mod ends;
pub mod region4_sat_pT;
