// The reader: the check of an image, refusals 1 to 7 and 13.
#![tactic(auto)]

pub mod check;
