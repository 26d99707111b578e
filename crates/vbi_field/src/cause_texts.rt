//! The texts of causes.

ghost use Rattle.std.specs.Prelude.{◌≡◌};
ghost use Rattle.vbi_field.specs.CodeTexts.{cause_text_of};

use crate::numbers::push_number;
use arrayvec::ArrayString;
use vbi_words::Outcome;

/// Why a line has no word, with the column if the cause has one; `word` if it has a word.
pub fn cause_text(outcome: Outcome) -> ArrayString<16>
    ensures { result.bytes ≡ cause_text_of outcome }
{
    let mut text = ArrayString::new();
    match outcome {
        Outcome::Word(_) => text.push_str("word"),
        Outcome::Blank => text.push_str("blank"),
        Outcome::Unfinished => text.push_str("unfinished"),
        Outcome::Change(column) => {
            text.push_str("change ");
            push_number(&mut text, column);
        }
        Outcome::Hold(column) => {
            text.push_str("hold ");
            push_number(&mut text, column);
        }
    }
    text
}
