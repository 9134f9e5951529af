// The state of a run in words: its record, the words of its answers, and what it reads of table and store. Every function here is
// inner: `run` of the crate `marshtrundle` checks what they require.
#![tactic(auto)]

pub mod answers;
pub mod reading;
pub mod record;
