// A row of columns: what is possible of one sequence for all facts of a block at once, in machine words.
#![tactic(auto)]

pub mod words;
