//! The texts of known words, codes and causes.

use std::test::Fail;
use vbi_field::{cause_text, code_text, hex_text};
use vbi_test_devices::same;
use vbi_words::{Code, Outcome, Word24, classify};

static WORDS: [(u32, &str, &str); 41] = [
    (0x88FFFF, "88FFFF", "lead-in"),
    (0x80EEEE, "80EEEE", "lead-out"),
    (0x82CFFF, "82CFFF", "picture stop"),
    (0x87FFFF, "87FFFF", "clv"),
    (0xF00000, "F00000", "picture 00000"),
    (0xF79999, "F79999", "picture 79999"),
    (0xF80000, "F80000", "picture 00000"),
    (0xF92345, "F92345", "picture 12345"),
    (0xFF9999, "FF9999", "picture 79999"),
    (0xF12A45, "F12A45", "other"),
    (0x80ADDD, "80ADDD", "other"),
    (0x8AE0A0, "8AE0A0", "other"),
    (0x88DFFF, "88DFFF", "other"),
    (0x800DDD, "800DDD", "chapter 00"),
    (0x879DDD, "879DDD", "chapter 79"),
    (0x880DDD, "880DDD", "chapter 00"),
    (0x8F9DDD, "8F9DDD", "chapter 79"),
    (0xF9DD59, "F9DD59", "time 9:59"),
    (0xF0DD99, "F0DD99", "time 0:99"),
    (0x8AE712, "8AE712", "clv picture 07 12"),
    (0x8FE999, "8FE999", "clv picture 59 99"),
    (0x8DC000, "8DC000", "cx on 000"),
    (0x8DCFFF, "8DCFFF", "cx on FFF"),
    (0x80D000, "80D000", "users 0 000"),
    (0x87DDDD, "87DDDD", "users 7 DDD"),
    (0x807DDD, "807DDD", "chapter 07"),
    (0xF1DD09, "F1DD09", "time 1:09"),
    (0x8DC0A1, "8DC0A1", "cx on 0A1"),
    (0x83D0A1, "83D0A1", "users 3 0A1"),
    // Digits that differ, so that each has its place, and each of the sixteen.
    (0xF01234, "F01234", "picture 01234"),
    (0xF56789, "F56789", "picture 56789"),
    (0x89ABCD, "89ABCD", "other"),
    (0xFEDCBA, "FEDCBA", "other"),
    (0x800000, "800000", "other"),
    (0xFFFFFF, "FFFFFF", "other"),
    (0x837DDD, "837DDD", "chapter 37"),
    (0xF5DD37, "F5DD37", "time 5:37"),
    (0x8CE345, "8CE345", "clv picture 23 45"),
    (0x8AE000, "8AE000", "clv picture 00 00"),
    (0x8DCABC, "8DCABC", "cx on ABC"),
    (0x8DC012, "8DC012", "cx on 012"),
];

// Numbers too wide for their digits, as no word has them.
static BY_HAND: [(Code, &str); 5] = [
    (Code::Picture(4294967295), "picture 4294967295"),
    (Code::Picture(100_000), "picture 100000"),
    (Code::Chapter(255), "chapter 255"),
    (Code::CxOn(0xFFFF), "cx on FFFF"),
    (Code::CxOn(0x1000), "cx on 1000"),
];

const CAUSES: [(Outcome, &str); 13] = [
    (Outcome::Blank, "blank"),
    (Outcome::Unfinished, "unfinished"),
    (Outcome::Change(0), "change 0"),
    (Outcome::Change(9), "change 9"),
    (Outcome::Change(34), "change 34"),
    (Outcome::Change(100), "change 100"),
    (Outcome::Change(1120), "change 1120"),
    (Outcome::Change(65535), "change 65535"),
    (Outcome::Hold(36), "hold 36"),
    (Outcome::Hold(46), "hold 46"),
    (Outcome::Hold(909), "hold 909"),
    (Outcome::Hold(1134), "hold 1134"),
    (Outcome::Hold(65535), "hold 65535"),
];

#[test]
fn words_have_their_texts() -> Result<(), Fail> {
    for &(value, hex, text) in &WORDS {
        let word = Word24::new(value)?;
        same(hex_text(word).as_str(), hex, "hex")?;
        same(code_text(classify(word)).as_str(), text, hex)?;
    }
    Ok(())
}

#[test]
fn wide_numbers_have_all_digits() -> Result<(), Fail> {
    for &(code, text) in &BY_HAND {
        same(code_text(code).as_str(), text, code)?;
    }
    let (hours, minutes) = (12, 255);
    let code = Code::Time { hours, minutes };
    same(code_text(code).as_str(), "time 12:255", code)?;
    let (seconds, picture) = (100, 255);
    let code = Code::ClvPicture { seconds, picture };
    same(code_text(code).as_str(), "clv picture 100 255", code)?;
    let (digit, number) = (255, 0x1000);
    let code = Code::Users { digit, number };
    same(code_text(code).as_str(), "users 255 1000", code)
}

#[test]
fn causes_have_their_texts() -> Result<(), Fail> {
    for &(outcome, text) in &CAUSES {
        same(cause_text(outcome).as_str(), text, outcome)?;
    }
    let word = Outcome::Word(Word24::new(0x82CFFF)?);
    same(cause_text(word).as_str(), "word", word)
}
