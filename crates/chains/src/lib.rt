// Chains: links and their words, which runs a chain stands for, which chain answers a question, and what the chain call comes to; ranks, by which
// the answer is worked out; and their theory. There is no function here.
#![tactic(auto)]
