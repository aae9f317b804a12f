// The words of an image: kinds, payloads, the head, and what the sum word is, which `sum` works out; and the answers, refusals with their numbers and
// positions.
#![tactic(auto)]

pub mod answer;
pub mod fours;
pub mod word;
