// Why a sequence has no run: the sequences without a run that one reaches, the list of them, and which lists show that none of their members has a
// run. There is no function here.
#![tactic(auto)]
