// The table check and the store check: whether the words have the form that document 01 gives them, and if not, where.
// Nothing is written. Every slice of every length gets an answer.
#![tactic(auto)]

pub mod bindings;
pub mod entries;
pub mod kinds;
pub mod nodes;
pub mod refusal;
pub mod rows;
pub mod search;
pub mod signature;
