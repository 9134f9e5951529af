// What the linker links: each call of the library marshtrundle under its name in C, with its clauses and without `requires`. It refuses by
// number.
#![tactic(auto)]

pub mod counted;
pub mod exported;
pub mod shared;
pub mod stepped;
