// The table of what is possible for each sequence, settled by visits until none changes a row.
#![tactic(auto)]

pub mod settle;
pub mod steps;
pub mod table;
