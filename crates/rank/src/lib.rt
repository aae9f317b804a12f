// Ranks: how few links, or how little depth, a sequence takes, by its alternatives and the tables as they stand, and the visits that settle
// them.
#![tactic(auto)]

pub mod read;
pub mod settle;
