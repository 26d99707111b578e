//! The format of a field.

ghost use Rattle.std.specs.Prelude.{◌≡◌};
ghost use Rattle.std.specs.List.{list_any};
ghost use Rattle.vbi_words.specs.Formats.{is_cav_code, is_clv_code, has_code, format_from, format_of_lines};

use crate::code::{Code, classify};
use crate::word::Word24;

/// Which kinds of disc a field's codes speak of.
#[derive(Clone, Copy, Debug, PartialEq, Eq)]
pub enum Format {
    /// Constant angular velocity: pictures and picture stops, and no CLV code.
    Cav,
    /// Constant linear velocity: CLV marks, times and CLV pictures, and no CAV code.
    Clv,
    /// Codes of both kinds.
    Both,
    /// No code of either kind.
    Neither,
}

/// Whether the line has a word with a CAV code.
fn is_cav(line: Option<Word24>) -> bool
    ensures { result ≡ has_code is_cav_code line }
{
    match line {
        Some(word) => matches!(classify(word), Code::Picture(_) | Code::PictureStop),
        None => false,
    }
}

/// Whether the line has a word with a CLV code.
fn is_clv(line: Option<Word24>) -> bool
    ensures { result ≡ has_code is_clv_code line }
{
    match line {
        Some(word) => matches!(
            classify(word),
            Code::ClvMark | Code::Time { .. } | Code::ClvPicture { .. }
        ),
        None => false,
    }
}

/// Whether one of the lines has a word with a CAV code.
fn any_cav(lines: &[Option<Word24>]) -> bool
    ensures { result ≡ list_any (has_code is_cav_code) lines.now }
{
    lines.iter().any(|line| is_cav(*line))
}

/// Whether one of the lines has a word with a CLV code.
fn any_clv(lines: &[Option<Word24>]) -> bool
    ensures { result ≡ list_any (has_code is_clv_code) lines.now }
{
    lines.iter().any(|line| is_clv(*line))
}

/// The format that names these kinds of code.
fn naming(cav: bool, clv: bool) -> Format
    ensures { result ≡ format_from cav clv }
{
    match (cav, clv) {
        (true, true) => Format::Both,
        (true, false) => Format::Cav,
        (false, true) => Format::Clv,
        (false, false) => Format::Neither,
    }
}

/// The format of a field whose lines 16, 17 and 18 have these words: the only one that it has, as the law `one_format`
/// says. Lines without a word count for nothing.
#[tactic(auto, unfolding(crate::specs::Formats::format_of_lines))]
pub fn format_of(words: &[Option<Word24>; 3]) -> Format
    ensures { result ≡ format_of_lines words.now }
{
    naming(any_cav(words), any_clv(words))
}
