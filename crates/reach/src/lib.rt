// The sequences without a run that one reaches, as a set and as a list of its members.
#![tactic(auto)]

pub mod found;
pub mod members;
