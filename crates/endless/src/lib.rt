// Why a sequence has no run: the call that lists the sequences without a run which it reaches.
#![tactic(auto)]

pub mod answer;
pub mod call;
