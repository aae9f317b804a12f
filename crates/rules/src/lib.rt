// The rules for a word of an image: refusals 4, 5, 6 and 13.
#![tactic(auto)]

pub mod rules;
