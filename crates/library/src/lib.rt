// The library that an accepted image holds: its two parts, the masks of its steps and the places of its sequences.
#![tactic(auto)]

pub mod checked;
pub mod parts;
pub mod tables;
