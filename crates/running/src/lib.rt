// Which sequences have a run, as a set of bits: found by visits until none finds another one.
#![tactic(auto)]

pub mod read;
pub mod settle;
pub mod write;
