// The index of wish 12: a node that stands below the mark is found by its eight words.
#![tactic(auto)]

pub mod chains;
mod key;
pub mod lent;
pub mod twins;
