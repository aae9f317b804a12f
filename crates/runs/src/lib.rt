// Runs, touches, outcomes and execution; the definitions of source documents 000 and 001; what is possible over all runs, and the theory of all
// this. There is no function here.
#![tactic(auto)]
