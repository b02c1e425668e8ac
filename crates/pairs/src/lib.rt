// The eleven pairs, one row each: which formula is searched, between which ends, by which search.
#![tactic(auto)]

pub mod pair;
pub mod question;
pub mod region1_pair_ext;
pub mod region2_pair_ext;
pub mod region5_pair_ext;
pub mod root;
pub mod row;
