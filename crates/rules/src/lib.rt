// Rules as text: the fields, the terms and the conditions of a line, and its shape.
#![tactic(auto)]

pub mod condition;
pub mod field;
pub mod fields;
pub mod rule_text;
pub mod shape;
mod term;
