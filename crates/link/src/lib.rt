// The links of a chain: the choice of each by the ranks, and their words.
#![tactic(auto)]

pub mod link;
pub mod write;
