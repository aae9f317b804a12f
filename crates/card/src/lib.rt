// Sequence cards: 49 words a sequence, made of the outcome tables of the blocks of facts.
#![tactic(auto)]

pub mod call;
