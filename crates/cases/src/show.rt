// What a call gave back, as text.
use std::fmt::Display;
use std::io;
use std::io::Write;

// Prints each number after a space.
pub fn show_numbers<N: Display>(out: &mut impl Write, numbers: &[N]) -> io::Result<()> {
    for n in numbers {
        write!(out, " {n}")?;
    }
    Ok(())
}

// Prints each number that is not zero, with its place.
pub fn show_set<N: Copy + Into<u64>>(out: &mut impl Write, numbers: &[N]) -> io::Result<()> {
    for (i, n) in numbers.iter().enumerate() {
        let n: u64 = (*n).into();
        if n != 0 {
            write!(out, " {i}={n}")?;
        }
    }
    Ok(())
}

// The sum of all numbers modulo 2^32, each times 31 for each number after it.
fn sum<N: Copy + Into<u64>>(numbers: &[N]) -> u32 {
    let mut sum: u32 = 0;
    for n in numbers {
        let n: u64 = (*n).into();
        sum = sum.wrapping_mul(31).wrapping_add((n % 4294967296) as u32);
    }
    sum
}

// Prints of up to 512 numbers those that are not zero, of more the sum of all.
pub fn show_slice<N: Copy + Into<u64>>(out: &mut impl Write, numbers: &[N]) -> io::Result<()> {
    if numbers.len() <= 512 {
        show_set(out, numbers)
    } else {
        show_numbers(out, &[sum(numbers)])
    }
}

// Prints the bindings' words that are not zero, `:`, and the store.
pub fn show_memory(out: &mut impl Write, store: &[u32], bindings: &[u32]) -> io::Result<()> {
    show_set(out, bindings)?;
    out.write_all(b" :")?;
    show_slice(out, store)
}

// The same, `:`, and a list more.
pub fn show_lists<N: Copy + Into<u64>>(
    out: &mut impl Write,
    store: &[u32],
    bindings: &[u32],
    list: &[N],
) -> io::Result<()> {
    show_memory(out, store, bindings)?;
    out.write_all(b" :")?;
    show_slice(out, list)
}
