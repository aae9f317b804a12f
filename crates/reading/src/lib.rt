// A sequence read by a table of rows: the row that its alternatives come to.
#![tactic(auto)]

pub mod read;
