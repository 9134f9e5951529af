// The leaves of a run: term comparison, the matcher and the builder. Contracts name the meaning's rules over the store's words.
// Every function here is inner: `run` of the crate `marshtrundle` checks what they require.
#![tactic(auto)]

pub mod builder;
mod compare;
pub mod matcher;
