//! The texts of words and of their codes.

ghost use Rattle.std.specs.Prelude.{◌≡◌};
ghost use Rattle.vbi_field.specs.CodeTexts.{hex_text_of, code_text_of};

use crate::numbers::{push_hex, push_hex_number, push_number, push_padded};
use arrayvec::ArrayString;
use vbi_words::{Code, Word24, digit};

/// The word in six upper-case hexadecimal digits.
pub fn hex_text(word: Word24) -> ArrayString<6>
    ensures { result.bytes ≡ hex_text_of word }
{
    let number = word.value();
    let mut text = ArrayString::new();
    push_hex(&mut text, digit(number, 1));
    push_hex(&mut text, digit(number, 2));
    push_hex(&mut text, digit(number, 3));
    push_hex(&mut text, digit(number, 4));
    push_hex(&mut text, digit(number, 5));
    push_hex(&mut text, digit(number, 6));
    text
}

/// What a code is called in the report, with its numbers; one too wide for its digits has all of them.
pub fn code_text(code: Code) -> ArrayString<24>
    ensures { result.bytes ≡ code_text_of code }
{
    let mut text = ArrayString::new();
    match code {
        Code::LeadIn => text.push_str("lead-in"),
        Code::LeadOut => text.push_str("lead-out"),
        Code::Picture(number) => {
            text.push_str("picture ");
            push_padded(&mut text, 5, number);
        }
        Code::PictureStop => text.push_str("picture stop"),
        Code::Chapter(number) => {
            text.push_str("chapter ");
            push_padded(&mut text, 2, number);
        }
        Code::ClvMark => text.push_str("clv"),
        Code::Time { hours, minutes } => {
            text.push_str("time ");
            push_number(&mut text, hours);
            text.push_str(":");
            push_padded(&mut text, 2, minutes);
        }
        Code::ClvPicture { seconds, picture } => {
            text.push_str("clv picture ");
            push_padded(&mut text, 2, seconds);
            text.push_str(" ");
            push_padded(&mut text, 2, picture);
        }
        Code::CxOn(number) => {
            text.push_str("cx on ");
            push_hex_number(&mut text, number);
        }
        Code::CxOff(number) => {
            text.push_str("cx off ");
            push_hex_number(&mut text, number);
        }
        Code::Users { digit, number } => {
            text.push_str("users ");
            push_number(&mut text, digit);
            text.push_str(" ");
            push_hex_number(&mut text, number);
        }
        Code::Other => text.push_str("other"),
    }
    text
}
