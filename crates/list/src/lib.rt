// The card of a test list, worked out from the cards alone.
#![tactic(auto)]

pub mod call;
pub mod compose;
