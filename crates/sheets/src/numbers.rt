// Numbers, scale letters and kinds.
ghost use Rattle.std.specs.Prelude.{◌≡◌, ◌≤◌, true, length};
ghost use Rattle.sheets.specs.Numbers.{shaped, numeral, at_most, factor, scaled, letter_kind, kind_of};
ghost use Rattle.sheets.specs.Reading.{text_of};

use crate::entry::Kind;
use crate::reader::Field;

// 1 to 9 bytes, the first of several not 0.
fn is_shaped(bytes: &[u8]) -> bool
    ensures value { result ≡ shaped bytes.now }
    ensures bound { result ≡ true → length bytes.now ≤ 9 }
{
    match bytes {
        [b'0', _, ..] => false,
        _ => (1..=9).contains(&bytes.len()),
    }
}

// The number that the bytes write, if they write one.
fn number(bytes: &[u8]) -> Option<u32>
    ensures { result ≡ numeral bytes.now }
{
    if !is_shaped(bytes) {
        return None;
    }
    let mut n: u32 = 0;
    for b in bytes {
        if !b.is_ascii_digit() {
            return None;
        }
        n = n * 10 + u32::from(*b - b'0');
    }
    Some(n)
}

fn scale(letter: char) -> Option<u32>
    ensures { result ≡ factor letter }
{
    match letter {
        'k' => Some(1_000),
        'M' => Some(1_000_000),
        _ => None,
    }
}

// No `TryFrom`: an unknown letter is no error yet where it is found, since a line's value is judged before its kind.
fn kind_of_letter(letter: char) -> Option<Kind>
    ensures { result ≡ letter_kind letter }
{
    match letter {
        'R' => Some(Kind::Resistor),
        'C' => Some(Kind::Capacitor),
        'X' => Some(Kind::Coded),
        _ => None,
    }
}

// The number of a field, if it is at most `max`.
pub(crate) fn number_to(field: Field<'_>, max: u16) -> Option<u16>
    ensures { result ≡ at_most max (numeral (text_of field.entry)) }
{
    match field {
        Field::Number(it) => {
            let n = u16::try_from(number(it.piece.bytes)?).ok()?;
            (n <= max).then_some(n)
        }
        Field::Word(_) => None,
    }
}

// The last byte may be a scale letter.
fn with_scale(bytes: &[u8]) -> Option<u64>
    ensures { result ≡ scaled bytes.now }
{
    let (last, front) = bytes.split_last()?;
    match scale(char::from(*last)) {
        Some(k) => number(front).map(|n| u64::from(n) * u64::from(k)),
        None => number(bytes).map(u64::from),
    }
}

// A number that a scale letter may follow.
pub(crate) fn amount(field: Field<'_>) -> Option<u64>
    ensures { result ≡ scaled (text_of field.entry) }
{
    match field {
        Field::Number(it) => with_scale(it.piece.bytes),
        Field::Word(_) => None,
    }
}

// A kind is one letter.
pub(crate) fn kind_in(field: Field<'_>) -> Option<Kind>
    ensures { result ≡ kind_of (text_of field.entry) }
{
    match field {
        Field::Word(word) => match word.piece.bytes {
            [letter] => kind_of_letter(char::from(*letter)),
            _ => None,
        },
        Field::Number(_) => None,
    }
}
