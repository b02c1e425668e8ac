// What every region uses: the numbers, the causes of refusals, and the boundaries between regions.
#![tactic(auto)]

pub mod boundaries;
pub mod cause;
pub mod constant;
