// Bytes and text: little-endian words out of bytes, and numerals put in front of a text. A text is written into a lent area from its end to
// its start, each piece in front of what is there.
#![tactic(auto)]

pub mod area;
pub mod bytes;
pub mod number;
