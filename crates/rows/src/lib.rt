// A table of rows, one for each sequence or step.
#![tactic(auto)]

pub mod table;
