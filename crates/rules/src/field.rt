// What a field of a term is.
ghost use Rattle.std.specs.Prelude.{◌≡◌};
ghost use Rattle.text.specs.Text.{one_word, number_of};
ghost use Rattle.rules.specs.Text.{head_of, up_to_six};
ghost use Rattle.text.specs.Held.{value_of};
ghost use Rattle.rules.specs.Held.{head_held};

use text::field::number;

// A term's first field.
#[derive(Clone, Copy)]
pub enum Head {
    Variable(u32),
    Constructor(u32),
}

// What a term's first field is, or nothing.
pub fn head_of(field: &[u8]) -> Option<Head>
    ensures { head_held result ≡ head_of field.now }
{
    if field.is_empty() {
        return None;
    }
    if field[0] == b'v' {
        return Some(Head::Variable(number(&field[1..])?));
    }
    let c = number(field)?;
    if c <= 65535 {
        Some(Head::Constructor(c))
    } else {
        None
    }
}

// A constructor's child count, or nothing.
pub fn children(field: &[u8]) -> Option<u32>
    ensures { value_of result ≡ up_to_six (number_of one_word field.now) }
{
    number(field).filter(|n| *n <= 6)
}
