//! Codes and formats of known words; the expected values are those of the table of classes.

use std::test::Fail;
use vbi_test_devices::same;
use vbi_words::{Code, Format, Word24, classify, format_of};

fn time(hours: u8, minutes: u8) -> Code {
    Code::Time { hours, minutes }
}

fn clv_picture(seconds: u8, picture: u8) -> Code {
    Code::ClvPicture { seconds, picture }
}

fn users(digit: u8, number: u16) -> Code {
    Code::Users { digit, number }
}

// The law `worked_codes` has a dozen words of each class, and the scripts try the corners of every pattern.
#[test]
fn known_words_have_their_codes() -> Result<(), Fail> {
    for (value, code) in [
        (0x88FFFF, Code::LeadIn),
        (0x80EEEE, Code::LeadOut),
        (0x82CFFF, Code::PictureStop),
        (0x87FFFF, Code::ClvMark),
        (0xF00000, Code::Picture(0)),
        (0xF79999, Code::Picture(79999)),
        // The top bit of the second digit doesn't count, in pictures and in chapters.
        (0xF80000, Code::Picture(0)),
        (0xF92345, Code::Picture(12345)),
        (0xFF9999, Code::Picture(79999)),
        (0x800DDD, Code::Chapter(0)),
        (0x879DDD, Code::Chapter(79)),
        (0x880DDD, Code::Chapter(0)),
        (0x8F9DDD, Code::Chapter(79)),
        (0xF9DD59, time(9, 59)),
        (0xF0DD99, time(0, 99)),
        (0x8AE712, clv_picture(7, 12)),
        (0x8FE999, clv_picture(59, 99)),
        (0x8DCFFF, Code::CxOn(0xFFF)),
        (0x80D000, users(0, 0)),
        (0x87DDDD, users(7, 0xDDD)),
        // The least and the greatest word of all.
        (0x800000, Code::Other),
        (0xFFFFFF, Code::Other),
    ] {
        same(classify(Word24::new(value)?), code, value)?;
    }
    Ok(())
}

/// Words beside those of a class, which differ from them in one digit and have no class.
static OTHERS: [&[u32]; 17] = [
    // 88FFFF, 80EEEE, 82CFFF and 87FFFF stand alone.
    &[0x98FFFF, 0x89FFFF, 0x88EFFF, 0x88FEFF, 0x88FFEF, 0x88FFFE],
    &[0x90EEEE, 0x81EEEE, 0x80FEEE, 0x80EDEE, 0x80EFEE],
    &[0x80EEDE, 0x80EEFE, 0x80EEED, 0x80EEEF, 0x88DFFF],
    &[0x92CFFF, 0x81CFFF, 0x83CFFF, 0x82BFFF, 0x82CEFF],
    &[0x82CFEF, 0x82CFFE, 0x97FFFF, 0x86FFFF, 0x87EFFF],
    &[0x87FEFF, 0x87FFEF, 0x87FFFE],
    // Pictures are F00000 to FF9999, without the digits A to F after the second.
    &[0xE00000, 0xEF9999, 0xF0A000, 0xFFA999, 0xF00A00, 0xFF9A99],
    &[0xF000A0, 0xFF99A9, 0xF0000A, 0xFF999A, 0xF12A45],
    // Chapters are 800DDD to 8F9DDD, without the digits A to F as the third.
    &[0x900DDD, 0xF00DDD, 0x9F9DDD, 0x80ADDD, 0x8FADDD, 0x800CDD],
    &[0x8F9EDD, 0x800DCD, 0x8F9DED, 0x800DDC, 0x8F9DDE],
    // Times are F0DD00 to F9DD99.
    &[0xE0DD00, 0xFADD00, 0xFFDD00, 0xF0CD00, 0xF9ED99, 0xF0DC00],
    &[0xF9DE99, 0xF0DDA0, 0xF9DDA9, 0xF0DD0A, 0xF9DD9A],
    // CLV pictures are 8AE000 to 8FE999.
    &[0x9AE000, 0xFAE000, 0x89E000, 0x8AD000, 0x8AF000, 0x8FD999],
    &[0x8FF999, 0x8AEA00, 0x8FEA99, 0x8AE0A0, 0x8FE9A9],
    &[0x8AE00A, 0x8FE99A],
    // CX on is 8DC000 to 8DCFFF.
    &[
        0x9DC000, 0xFDC000, 0x8CC000, 0x8EC000, 0x8DB000, 0x8DD000, 0x8DDFFF,
    ],
    // Users' codes are 80D000 to 87DFFF.
    &[
        0x90D000, 0xF0D000, 0x88D000, 0x8FD000, 0x80C000, 0x80E000, 0x87CFFF, 0x87EFFF,
    ],
];

#[test]
fn words_beside_a_class_have_other_codes() -> Result<(), Fail> {
    for &values in &OTHERS {
        for &value in values {
            same(classify(Word24::new(value)?), Code::Other, value)?;
        }
    }
    Ok(())
}

/// The words of a field's three lines, 0 standing for a line without one, and its format; the law `worked_formats` has
/// more fields.
static FORMATS: [([u32; 3], Format); 7] = [
    ([0, 0, 0], Format::Neither),
    ([0x88FFFF, 0x88FFFF, 0x88FFFF], Format::Neither),
    ([0x82CFFF, 0xF12345, 0xF12345], Format::Cav),
    ([0, 0, 0xF12345], Format::Cav),
    ([0xF0DD00, 0, 0], Format::Clv),
    ([0x82CFFF, 0x87FFFF, 0], Format::Both),
    ([0x800DDD, 0x8AE712, 0xF12345], Format::Both),
];

#[test]
fn known_fields_have_their_formats() -> Result<(), Fail> {
    for &(words, format) in &FORMATS {
        let [first, second, third] = words;
        let lines = [
            Word24::new(first).ok(),
            Word24::new(second).ok(),
            Word24::new(third).ok(),
        ];
        same(format_of(&lines), format, words)?;
    }
    Ok(())
}
