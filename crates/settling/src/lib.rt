// Visits in place until nothing changes, in any table: what a visit is, one settling for all tables, which sequence is visited next and which again, and
// the laws of all this.
#![tactic(auto)]

pub mod settle;
pub mod turns;
