// Refusal 7: whether a line's row is typed, over the rows in the lent words.
#![tactic(auto)]

pub mod lines;
pub mod links;
pub mod nodes;
