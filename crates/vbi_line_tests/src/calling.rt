//! The callers that the pages CALLING.md of vbi_words, vbi_line and vbi_near show.

ghost use Rattle.std.specs.Option.{option_map};
ghost use Rattle.std.specs.Prelude.{◌≡◌, ◌≢◌, ℕ, ◌≤◌, length, Option, Some, IfSome};
ghost use Rattle.vbi_line.specs.OneReading.{reading_of};
ghost use Rattle.vbi_near.specs.Distances.{lines_of};
ghost use Rattle.vbi_near.specs.Nearest.{far_from};
ghost use Rattle.vbi_near.specs.Pictures.{IsPlace};
ghost use Rattle.vbi_words.specs.Codes.{code_of};
ghost use Rattle.vbi_words.specs.Drawn.{drawn_line_of};
ghost use Rattle.vbi_words.specs.Geometry.{line_bytes};
ghost use Rattle.vbi_words.specs.Levels.{row_levels};
ghost use Rattle.vbi_words.specs.Outcomes.{word_of};

use crate::lines::levels_of;
use std::test::Fail;
use vbi_line::read_bytes_twice;
use vbi_near::nearest_of_lines;
use vbi_test_devices::same;
use vbi_words::{Code, Levels, System, Word24, classify, draw_line};

/// Draws the line of a picture stop, the word 82CFFF.
fn draw_stop(system: System, slicing: Levels, line: &mut [u8])
    requires { length line.old ≡ line_bytes system }
    ensures { line.new ≡ drawn_line_of system slicing (Some 0x82CFFF) }
{
    if let Ok(word) = Word24::new(0x82CFFF) {
        draw_line(system, slicing, Some(word), line);
    }
}

/// What a line's word says, where it shows one: by its own levels or by the smoothed ones.
fn code_of_line(bytes: &[u8], system: System, slicing: Levels) -> Option<Code>
    requires { length bytes.now ≡ line_bytes system }
    ensures { result ≡ option_map code_of (word_of (reading_of system (row_levels slicing bytes.now)).outcome) }
{
    match read_bytes_twice(bytes, system, slicing).outcome.word() {
        Some(word) => Some(classify(word)),
        None => None,
    }
}

/// The word of a line, where the samples would have to be off by so much for any other, or for none.
fn sure_word(system: System, slicing: Levels, line: &[u8], least: u32) -> Option<Word24>
    requires { length line.now ≡ line_bytes system }
    ensures { IfSome result (λ word. (other : Option ℕ) (start : ℕ) → IsPlace system other start → other ≢ Some word
        → least ≤ far_from system slicing (lines_of system line.now 1) other start) }
{
    let near = nearest_of_lines(system, slicing, line, 1);
    if near.rival < least {
        return None;
    }
    near.word
}

#[test]
fn a_drawn_stop_is_read_as_one() -> Result<(), Fail> {
    let levels = levels_of(System::Ntsc);
    let mut line = [0; 1820];
    draw_stop(System::Ntsc, levels, &mut line);
    same(
        code_of_line(&line, System::Ntsc, levels),
        Some(Code::PictureStop),
        "a drawn stop",
    )
}

#[test]
fn a_drawn_stop_is_near_itself() -> Result<(), Fail> {
    let levels = levels_of(System::Ntsc);
    let mut line = [0; 1820];
    draw_stop(System::Ntsc, levels, &mut line);
    // Another word differs by a cell, of 28 columns at least, each of which counts seven tenths, rounded up.
    let rival = 28 * 24372;
    let found = [
        sure_word(System::Ntsc, levels, &line, rival).is_some(),
        sure_word(System::Ntsc, levels, &line, rival + 1).is_some(),
    ];
    same(found, [true, false], "a drawn stop")
}
