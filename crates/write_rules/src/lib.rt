// A rule of a table written back as a line of text.
#![tactic(auto)]

mod line;
pub mod rule;
mod term;
