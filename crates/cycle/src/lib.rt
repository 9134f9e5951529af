// The cycle of visits, over the leaves: applying an entry, and the rule of each kind. Contracts name the meaning's rules over
// the store's words. Every function here is inner: `run` of the crate `marshtrundle` checks what they require.
#![tactic(auto)]

mod skipping;
pub mod visits;
