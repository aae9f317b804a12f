// The words of a sequence, where they stand in the image: walked from left to right, and gone back over.
#![tactic(auto)]

pub mod entries;
pub mod sequence;
