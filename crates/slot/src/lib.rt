// A table of ranks, entry by entry: where the rank of an entry stands, what that says of it, and the ranks of the items.
#![tactic(auto)]

pub mod entry;
