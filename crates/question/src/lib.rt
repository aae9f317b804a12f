// The chain call's question and answer as the code has them, and the words of a link.
#![tactic(auto)]

pub mod answer;
pub mod asked;
pub mod words;
