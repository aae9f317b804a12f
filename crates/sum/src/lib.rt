// The sum word: the sums of what the words of an image count as, and whether its last word has the payload that they give.
#![tactic(auto)]

pub mod fours;
pub mod payload;
pub mod sums;
