// Cards: the numbers of a card and their words, what they mean by the published definitions and over all runs, and their theory. There is no function
// here.
#![tactic(auto)]
