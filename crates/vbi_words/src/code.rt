//! The classes of code words (IEC 60857 for NTSC discs, IEC 60856 for PAL discs).

ghost use Rattle.std.specs.Prelude.{◌≡◌, ◌↔◌, ◌≤◌, ◌<◌, IsTrue};
ghost use Rattle.vbi_words.specs.Codes.{digit_of, IsBetween, picture_of, chapter_of, seconds_of, last_two, code_of};
ghost use Rattle.vbi_words.specs.Codes.{last_three, IsCode};

use crate::word::Word24;

/// What a code word says, by its six hexadecimal digits. The ranges are those of the codes that `classify` returns.
#[derive(Clone, Copy, Debug, PartialEq, Eq)]
pub enum Code {
    /// The number of a picture on a CAV disc, from 0 to 79,999.
    Picture(u32),
    /// A chapter number, from 0 to 79.
    Chapter(u8),
    /// The programme time of a CLV disc, in hours and minutes.
    Time {
        /// Hours, from 0 to 9.
        hours: u8,
        /// Minutes, from 0 to 99.
        minutes: u8,
    },
    /// A picture of a CLV disc, by its time within the minute.
    ClvPicture {
        /// Seconds, from 0 to 59.
        seconds: u8,
        /// The picture within its second, from 0 to 99.
        picture: u8,
    },
    /// The programme status code of a disc with CX noise reduction: the last three hexadecimal digits, from 0 to 4,095.
    CxOn(u16),
    /// The programme status code of a disc without it: the last three hexadecimal digits, from 0 to 4,095.
    CxOff(u16),
    /// A users' code.
    Users {
        /// The second digit of the word, from 0 to 7.
        digit: u8,
        /// The last three hexadecimal digits, from 0 to 4,095.
        number: u16,
    },
    /// The lead-in of the disc.
    LeadIn,
    /// The lead-out of the disc.
    LeadOut,
    /// A picture at which a player may stop.
    PictureStop,
    /// The mark of a CLV disc.
    ClvMark,
    /// A word of no class above.
    Other,
}

/// The hexadecimal digit of a number at a place from 1, the sixth from the right, to 6, the last.
#[inline(always)]
pub fn digit(word: u32, place: u32) -> u8
    requires low { 1 ≤ place }
    requires high { place ≤ 6 }
    ensures digit { result ≡ digit_of word place }
    ensures range { result < 16 }
{
    // A shift, since a division by a number that isn't constant takes many times as long.
    ((word >> (24 - 4 * place)) % 16) as u8
}

/// Whether each of the word's six digits is from that of `least` to that of `greatest` at its place.
// Inlined into each of its calls, where both limits are constants and the digits of the word are those taken before.
#[inline(always)]
fn is_between(word: u32, least: u32, greatest: u32) -> bool
    ensures { IsTrue result ↔ IsBetween least greatest word }
{
    for place in 1..7 {
        let here = digit(word, place);
        if here < digit(least, place) || digit(greatest, place) < here {
            return false;
        }
    }
    true
}

/// The number that the word's last two decimal digits make.
fn two_digits(word: u32) -> u8
    ensures { result ≡ last_two word }
{
    10 * digit(word, 5) + digit(word, 6)
}

/// The number that the word's last three hexadecimal digits make.
fn three_digits(word: u32) -> u16
    ensures { result ≡ last_three word }
{
    256 * u16::from(digit(word, 4)) + 16 * u16::from(digit(word, 5)) + u16::from(digit(word, 6))
}

/// The number of a picture's word. The second digit counts without its top bit.
fn picture(word: u32) -> u32
    ensures { result ≡ picture_of word }
{
    10000 * u32::from(digit(word, 2) % 8)
        + 1000 * u32::from(digit(word, 3))
        + 100 * u32::from(digit(word, 4))
        + 10 * u32::from(digit(word, 5))
        + u32::from(digit(word, 6))
}

/// The number of a chapter's word. The second digit counts without its top bit.
fn chapter(word: u32) -> u8
    ensures { result ≡ chapter_of word }
{
    10 * (digit(word, 2) % 8) + digit(word, 3)
}

/// The seconds of a CLV picture's word. The second digit, from A to F, has the tens.
fn seconds(word: u32) -> u8
    requires { IsBetween 0x8AE000 0x8FE999 word }
    ensures { result ≡ seconds_of word }
{
    10 * (digit(word, 2) - 10) + digit(word, 4)
}

/// The code of a word's number.
// The order of the tests says nothing: no word is of two classes (law `one_code`).
fn code_of_number(word: u32) -> Code
    ensures { IsCode word result }
{
    if is_between(word, 0x88FFFF, 0x88FFFF) {
        Code::LeadIn
    } else if is_between(word, 0x80EEEE, 0x80EEEE) {
        Code::LeadOut
    } else if is_between(word, 0xF00000, 0xFF9999) {
        Code::Picture(picture(word))
    } else if is_between(word, 0x82CFFF, 0x82CFFF) {
        Code::PictureStop
    } else if is_between(word, 0x800DDD, 0x8F9DDD) {
        Code::Chapter(chapter(word))
    } else if is_between(word, 0x87FFFF, 0x87FFFF) {
        Code::ClvMark
    } else if is_between(word, 0xF0DD00, 0xF9DD99) {
        Code::Time {
            hours: digit(word, 2),
            minutes: two_digits(word),
        }
    } else if is_between(word, 0x8AE000, 0x8FE999) {
        Code::ClvPicture {
            seconds: seconds(word),
            picture: two_digits(word),
        }
    } else if is_between(word, 0x8DC000, 0x8DCFFF) {
        Code::CxOn(three_digits(word))
    } else if is_between(word, 0x8BA000, 0x8BAFFF) {
        Code::CxOff(three_digits(word))
    } else if is_between(word, 0x80D000, 0x87DFFF) {
        Code::Users {
            digit: digit(word, 2),
            number: three_digits(word),
        }
    } else {
        Code::Other
    }
}

/// The code of a word: the only one that it has, as the law `one_code` says.
pub fn classify(word: Word24) -> Code
    ensures { result ≡ code_of word }
{
    code_of_number(word.value())
}
