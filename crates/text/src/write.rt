// Writing a text into a lent buffer: bytes, numbers, lines. Each function puts its text at a place and gives the place
// after it.
// As it is: a struct of buffer and place was tried on `put_byte`; a caller's proof, that the lent buffer holds what it leaves, did not close.
ghost use Rattle.std.specs.Prelude.{[], ◌∷◌, ◌++◌, ◌+◌, ◌*◌, ◌≤◌, ◌<◌, length};
ghost use Rattle.text.specs.Text.{decimal};
ghost use Rattle.text.specs.Written.{numbers_text, Put};

// One byte.
pub fn put_byte(buf: &mut [u8], at: usize, b: u8) -> usize
    requires { at < length buf.old }
    ensures { Put buf.old at (b ∷ []) buf.new result }
{
    buf[at] = b;
    at + 1
}

// The digits of a number.
pub fn put_digits(buf: &mut [u8], at: usize, n: u32) -> usize
    requires { at + length (decimal n) ≤ length buf.old }
    ensures { Put buf.old at (decimal n) buf.new result }
{
    if n < 10 {
        return put_byte(buf, at, b'0' + n as u8);
    }
    let end = put_digits(buf, at, n / 10);
    put_byte(buf, end, b'0' + (n % 10) as u8)
}

// A tab and a number.
fn put_field(buf: &mut [u8], at: usize, n: u32) -> usize
    requires { at + 1 + length (decimal n) ≤ length buf.old }
    ensures { Put buf.old at (9 ∷ decimal n) buf.new result }
{
    let end = put_byte(buf, at, b'\t');
    put_digits(buf, end, n)
}

// Numbers, each after a tab.
fn put_fields(buf: &mut [u8], start: usize, numbers: &[u32]) -> usize
    requires { start + 11 * length numbers.now ≤ length buf.old }
    ensures { Put buf.old start (numbers_text numbers.now) buf.new result }
{
    let mut at = start;
    for n in numbers {
        at = put_field(buf, at, *n);
    }
    at
}

// Numbers and a line feed: what stands after a line's name.
pub fn put_rest(buf: &mut [u8], at: usize, numbers: &[u32]) -> usize
    requires { at + 11 * length numbers.now + 1 ≤ length buf.old }
    ensures { Put buf.old at (numbers_text numbers.now ++ (10 ∷ [])) buf.new result }
{
    let end = put_fields(buf, at, numbers);
    put_byte(buf, end, b'\n')
}
