// The card writer: the numbers of a card made of a row, and written into the lent area, a block of facts at a time.
#![tactic(auto)]

pub mod block;
pub mod card;
