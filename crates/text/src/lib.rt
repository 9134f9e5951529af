// Text in bytes: its lines, their fields, the numbers that fields are, and numbers written. Whatever is read or written as
// lines of fields stands on this.
#![tactic(auto)]

pub mod field;
pub mod line;
pub mod reader;
pub mod write;

// The numbers of a line's fields after its first: how many, and then zeros.
// As it is: the library uses no heap, so the numbers stand in an array of fixed length with their count.
#[derive(Clone, Copy)]
pub struct Numbers {
    pub count: u32,
    pub at: [u32; 8],
}
