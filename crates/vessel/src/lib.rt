// The vessel's calls: any doubles and any step limit get an answer or a numbered refusal.
#![tactic(auto)]

pub mod answer;
pub mod asked;
pub mod log;
pub mod pair;
pub mod property;
pub mod range;
pub mod saturation;
