// A stored case: the numbers of its text, the memory that it lends to its call, and what the call gave back, as text.
#![tactic(auto)]

pub mod counts;
pub mod input;
pub mod memory;
pub mod numbers;
pub mod show;
