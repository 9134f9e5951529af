// What refuses a text of rules: its variables, the entries that it calls, the room that it takes.
#![tactic(auto)]

pub mod answer;
pub mod bound;
pub mod check;
mod far;
pub mod line;
mod variables;
