// An order of visits: along the calls where that can be, and one that names every sequence always.
#![tactic(auto)]

pub mod finishing;
pub mod named;
