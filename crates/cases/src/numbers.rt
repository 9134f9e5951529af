// The numbers of a case, read one after the other.
ghost use Rattle.std.specs.Prelude.{◌≤◌, IfSome};

// What is left of the text of a case.
#[derive(Clone, Copy)]
pub struct Numbers<'a> {
    pub rest: &'a [u8],
}

// The digit that a byte is, if it is one.
fn digit(b: u8) -> Option<u32>
    ensures { IfSome result (λ d. d ≤ 9) }
{
    match b {
        b'0'..=b'9' => Some((b - b'0') as u32),
        _ => None,
    }
}

impl<'a> Numbers<'a> {
    // The next number, modulo 2^32, and past the byte that ends it; 0 where there is no digit.
    pub fn number(&mut self) -> u32 {
        let mut value: u32 = 0;
        while let Some((b, rest)) = self.rest.split_first() {
            self.rest = rest;
            match digit(*b) {
                Some(d) => value = value.wrapping_mul(10).wrapping_add(d),
                None => break,
            }
        }
        value
    }

    // The next two numbers as one of 64 bits, the upper half first.
    pub fn wide(&mut self) -> u64 {
        let high = self.number() as u64;
        let low = self.number() as u64;
        high * 4294967296 + low
    }

    // Reads a number for each word.
    pub fn read(&mut self, words: &mut [u32]) {
        for w in words.iter_mut() {
            *w = self.number();
        }
    }
}
