// What document 01's "Agreement" asks beside the demands: the starred samples as one fact of the definitions, and that an engine which is wrong
// in one of the ways listed there meets no demand that names it. There is no function here.
#![tactic(auto)]
