// What a program in C or Rust calls: each call under its name in C, without `requires`. It refuses by number. The crate marshtrundle_c
// has each for the linker.
#![tactic(auto)]

pub mod counted;
pub mod exported;
pub mod shared;
pub mod stepped;
