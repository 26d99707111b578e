//! A row of the text of words.
ghost use Rattle.std.specs.Prelude.{◌≡◌, ◌+◌, ◌^◌, ◌<◌, ◌≤◌, ◌==◌, [], ◌∷◌, length, if◌then◌else◌, Some, None};
ghost use Rattle.std.specs.Prelude.{MatchOption};
ghost use Rattle.std.specs.List.{list_all, position};
ghost use Rattle.std.specs.Char.{is_digit};
ghost use Rattle.std.specs.Str.Parse.{digits_value};
ghost use Rattle.vbi_field.specs.WordRows.{space, item_of, row_of_items, parts_of, word_row_of};

use vbi_words::Word24;

/// What a row of the text of words stands for: a word or none for each of lines 16, 17 and 18 of a field.
#[derive(Clone, Copy)]
pub struct WordRow {
    /// The word of line 16.
    pub first: Option<Word24>,
    /// The word of line 17.
    pub second: Option<Word24>,
    /// The word of line 18.
    pub third: Option<Word24>,
}

/// The number that six hexadecimal digits write, upper or lower case.
fn hex_value(text: &[u8]) -> Option<u32>
    requires { length text.now ≤ 6 }
    ensures { result ≡ (if list_all (λ c. is_digit c 16) text.now then Some (digits_value 16 text.now) else None) }
{
    let mut value = 0u32;
    for byte in text {
        value = value * 16 + char::from(*byte).to_digit(16)?;
    }
    Some(value)
}

/// What the text of an item stands for, or `None` if it is no item.
#[tactic(auto, unfolding(crate::specs::WordRows::item_of))]
fn read_item(text: &[u8]) -> Option<Option<Word24>>
    ensures { result ≡ item_of text.now }
{
    if text.len() == 1 && text[0] == b'-' {
        return Some(None);
    }
    if text.len() != 6 {
        return None;
    }
    let word = Word24::new(hex_value(text)?).ok()?;
    Some(Some(word))
}

/// Where the first space is.
fn space_in(text: &[u8]) -> Option<usize>
    ensures { result ≡ position (λ c. c == space) text.now }
{
    text.iter().position(|byte| *byte == b' ')
}

/// The part before the first space and what follows the space, if there is one.
fn cut_at_space(text: &[u8]) -> Option<(&[u8], &[u8])>
    ensures { MatchOption result (parts_of text.now ≡ text.now ∷ [])
        (λ cut. parts_of text.now ≡ cut.0.now ∷ parts_of cut.1.now) }
{
    let at = space_in(text)?;
    Some((&text[..at], &text[at + 1..]))
}

/// The items of a row, if each is one.
fn join_items(
    first: Option<Option<Word24>>,
    second: Option<Option<Word24>>,
    third: Option<Option<Word24>>,
) -> Option<WordRow>
    ensures { result ≡ row_of_items first second third }
{
    Some(WordRow {
        first: first?,
        second: second?,
        third: third?,
    })
}

/// The words that a row without its newline stands for, or `None` if it is malformed.
pub(crate) fn read_word_row(row: &[u8]) -> Option<WordRow>
    ensures { result ≡ word_row_of row.now }
{
    let (first, rest) = cut_at_space(row)?;
    let (second, third) = cut_at_space(rest)?;
    match cut_at_space(third) {
        // A third space: four items, or an empty one.
        Some(_) => None,
        None => join_items(read_item(first), read_item(second), read_item(third)),
    }
}
