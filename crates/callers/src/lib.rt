// Who calls whom: the callers of each sequence as sets of bits, by which it is known which sequences are to be visited again, and in which
// order they are best visited.
#![tactic(auto)]

pub mod callees;
pub mod sets;
pub mod write;
