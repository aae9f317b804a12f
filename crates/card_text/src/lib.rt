// What the printing program prints for the bytes that it reads: card lines, or a refusal.
#![tactic(auto)]

pub mod line;
pub mod print;
