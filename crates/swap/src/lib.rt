// What the sum word notices: an accepted image in which two different entries change places is refused. There is no function here.
#![tactic(auto)]
