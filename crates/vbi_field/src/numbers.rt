//! Numbers in a text of fixed room.

ghost use Rattle.std.specs.Prelude.{◌≡◌, ◌+◌, ◌≤◌, ◌<◌, ◌++◌, ◌∷◌, [], replicate};
ghost use Rattle.arrayvec.specs.ArrayString.{array_string_len};
ghost use Rattle.vbi_field.specs.CodeTexts.{hex_digit, hex_number, padded};

use arrayvec::ArrayString;
use itoa::{Buffer, Integer};
use vbi_words::digit;

/// Appends a number in decimal.
pub(crate) fn push_number<I: Integer, const N: usize>(text: &mut ArrayString<N>, number: I)
    requires { array_string_len text.old + I.MAX_STR_LEN ≤ N }
    ensures bytes { text.new.bytes ≡ text.old.bytes ++ I.text number }
    ensures fits { array_string_len text.new ≤ array_string_len text.old + I.MAX_STR_LEN }
{
    let mut buffer = Buffer::new();
    text.push_str(buffer.format(number));
}

/// Appends this number of zeros.
fn push_zeros<const N: usize>(text: &mut ArrayString<N>, count: usize)
    requires { array_string_len text.old + count ≤ N }
    ensures { text.new.bytes ≡ text.old.bytes ++ replicate count 48 }
{
    for _ in 0..count {
        text.push_str("0");
    }
}

/// Appends a number in decimal, with zeros in front of it up to this number of digits.
pub(crate) fn push_padded<I: Integer, const N: usize>(
    text: &mut ArrayString<N>,
    digits: usize,
    number: I,
)
    requires narrow { digits ≤ I.MAX_STR_LEN }
    requires room { array_string_len text.old + I.MAX_STR_LEN ≤ N }
    ensures bytes { text.new.bytes ≡ text.old.bytes ++ padded digits (I.text number) }
    ensures fits { array_string_len text.new ≤ array_string_len text.old + I.MAX_STR_LEN }
{
    let mut buffer = Buffer::new();
    let written = buffer.format(number);
    push_zeros(text, digits.saturating_sub(written.len()));
    text.push_str(written);
}

/// Appends an upper-case hexadecimal digit.
pub(crate) fn push_hex<const N: usize>(text: &mut ArrayString<N>, value: u8)
    requires digit { value < 16 }
    requires room { array_string_len text.old + 1 ≤ N }
    ensures { text.new.bytes ≡ text.old.bytes ++ hex_digit value ∷ [] }
{
    text.push(char::from(if value < 10 {
        b'0' + value
    } else {
        b'A' + (value - 10)
    }));
}

/// Appends a number in three hexadecimal digits, or in four if it has more.
pub(crate) fn push_hex_number<const N: usize>(text: &mut ArrayString<N>, number: u16)
    requires { array_string_len text.old + 4 ≤ N }
    ensures { text.new.bytes ≡ text.old.bytes ++ hex_number number }
{
    let number = u32::from(number);
    if number >= 0x1000 {
        push_hex(text, digit(number, 3));
    }
    push_hex(text, digit(number, 4));
    push_hex(text, digit(number, 5));
    push_hex(text, digit(number, 6));
}
