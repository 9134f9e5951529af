// Rules as text into a table: the entries of each line in preorder, and their operands.
#![tactic(auto)]

mod heads;
pub mod lines;
mod link;
pub mod translate;
