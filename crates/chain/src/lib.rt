// Chains: a way, link by link, to a run with the outcome asked for (document 01, "Chains").
#![tactic(auto)]

pub mod call;
