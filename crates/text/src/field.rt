// The fields of a line: where each ends, the number that it is, and the numbers of several.
ghost use Rattle.std.specs.Prelude.{◌≡◌, ◌+◌, ◌≤◌, ◌<◌, length, drop, get_or};
ghost use mathlib.Core.List.{tail};
ghost use Rattle.text.specs.Text.{up_to, parts, one_word, valued, number_of, numbers_of};
ghost use Rattle.text.specs.Held.{value_of, numbers_held};

use crate::Numbers;

// Where the next c stands, from a place on; the end where there is none.
pub fn next_at(s: &[u8], from: usize, c: u8) -> usize
    requires { from ≤ length s.now }
    ensures { result ≡ from + length (up_to c (drop from s.now)) }
{
    match s[from..].iter().position(|b| *b == c) {
        Some(k) => from + k,
        None => s.len(),
    }
}

// The number of digits, the first of which is no zero.
fn digits(field: &[u8], most: u64) -> Option<u64>
    requires { 9 ≤ most }
    ensures { value_of result ≡ valued most 0 field.now }
{
    let mut value: u64 = 0;
    for b in field {
        if !b.is_ascii_digit() {
            return None;
        }
        let digit = u64::from(*b - b'0');
        if (most - digit) / 10 < value {
            return None;
        }
        value = value * 10 + digit;
    }
    Some(value)
}

// The number of a field, at most a limit.
pub fn number_within(field: &[u8], most: u64) -> Option<u64>
    requires { 9 ≤ most }
    ensures { value_of result ≡ number_of most field.now }
{
    match field {
        [] => None,
        [first, ..] if *first != b'0' => digits(field, most),
        [_] => Some(0),
        _ => None,
    }
}

// The number of a field, of one word.
pub fn number(field: &[u8]) -> Option<u32>
    ensures { value_of result ≡ number_of one_word field.now }
{
    let v = number_within(field, u64::from(u32::MAX))?;
    Some(v as u32)
}

// The numbers of a line from a tab, or the end, on; none where a field is no number, or there are more than eight.
pub fn numbers(line: &[u8], from: usize) -> Option<Numbers>
    requires { (from ≤ length line.now) × (from < length line.now → get_or line.now from 0 ≡ 9) }
    ensures { result ≡ numbers_held (numbers_of 8 (tail (parts 9 (drop from line.now)))) }
{
    let mut at = [0u32; 8];
    let mut count: u32 = 0;
    let mut i = from;
    while i < line.len() {
        if 8 <= count {
            return None;
        }
        let end = next_at(line, i + 1, b'\t');
        let v = number(&line[i + 1..end])?;
        at[count as usize] = v;
        count += 1;
        i = end;
    }
    Some(Numbers { count, at })
}
