// What every call starts from: the masks of the steps, the places of the sequences, which of them call which and an order of visits, made of an
// accepted image in areas of two sizes.
#![tactic(auto)]

pub mod prepare;
pub mod size;
