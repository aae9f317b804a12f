// The seal call: the sum word of an image, written into its last place.
#![tactic(auto)]

pub mod answer;
pub mod call;
