// The counts that a case lends to a run: two numbers of its text, the upper half and the lower, are one count of 64 bits.
use crate::memory::set;
use crate::numbers::Numbers;

// Sets every count to the next one of the text, then each that the text names to its own.
pub fn make_counts(numbers: &mut Numbers, counts: &mut [u64]) {
    counts.fill(numbers.wide());
    for _ in 0..numbers.number() {
        let place = numbers.number();
        set(counts, place, numbers.wide());
    }
}
