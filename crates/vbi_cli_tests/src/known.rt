//! The lines, fields and texts that are known.

use std::alloc::{AllocError, Global};
use vbi_words::System;

/// The first bytes of some, this many, or all of fewer.
pub(crate) fn front(bytes: &[u8], count: usize) -> &[u8] {
    let (front, _) = bytes.split_at(count.min(bytes.len()));
    front
}

/// Some texts, one after another.
pub(crate) fn joined(alloc: Global, texts: &[&str]) -> Result<Vec<u8>, AllocError> {
    let mut bytes = Vec::new(alloc);
    for text in texts {
        bytes.extend_from_slice(text.as_bytes())?;
    }
    Ok(bytes)
}

/// Appends this sample at each column from one up to another.
pub(crate) fn push_samples(
    bytes: &mut Vec<u8>,
    sample: u16,
    from: usize,
    to: usize,
) -> Result<(), AllocError> {
    for _ in from..to {
        bytes.extend_from_slice(&sample.to_le_bytes())?;
    }
    Ok(())
}

/// An NTSC line of black samples, whose level is 16384.
fn black_line(alloc: Global) -> Result<Vec<u8>, AllocError> {
    let mut line = Vec::new(alloc);
    push_samples(&mut line, 16384, 0, 910)?;
    Ok(line)
}

/// Some bytes, so often.
pub(crate) fn repeated(alloc: Global, part: &[u8], times: usize) -> Result<Vec<u8>, AllocError> {
    let mut bytes = Vec::new(alloc);
    for _ in 0..times {
        bytes.extend_from_slice(part)?;
    }
    Ok(bytes)
}

/// The first bytes of a stream of black NTSC lines, this many.
pub(crate) fn black_stream(alloc: Global, bytes: usize) -> Result<Vec<u8>, AllocError> {
    let line = black_line(alloc)?;
    let mut stream = repeated(alloc, line.as_slice(), bytes / 1820)?;
    stream.extend_from_slice(front(line.as_slice(), bytes % 1820))?;
    Ok(stream)
}

/// Where each half cell of a drawn NTSC word ends, in columns from the word's start: the whole part of its number, from
/// 1, by 315/22.
static NTSC_ENDS: [usize; 48] = [
    14, 28, 42, 57, 71, 85, 100, 114, 128, 143, 157, 171, 186, 200, 214, 229, 243, 257, 272, 286,
    300, 315, 329, 343, 357, 372, 386, 400, 415, 429, 443, 458, 472, 486, 501, 515, 529, 544, 558,
    572, 587, 601, 615, 630, 644, 658, 672, 687,
];

/// Where each half cell of a drawn PAL word ends, in columns from the word's start: the whole part of its number, from
/// 1, by 709379/40000.
static PAL_ENDS: [usize; 48] = [
    17, 35, 53, 70, 88, 106, 124, 141, 159, 177, 195, 212, 230, 248, 266, 283, 301, 319, 336, 354,
    372, 390, 407, 425, 443, 461, 478, 496, 514, 532, 549, 567, 585, 602, 620, 638, 656, 673, 691,
    709, 727, 744, 762, 780, 798, 815, 833, 851,
];

/// The samples of a word's 48 half cells: a one is a low half and then a high one, a zero a high half and then a low
/// one.
fn push_word(
    bytes: &mut Vec<u8>,
    ends: &[usize],
    black: u16,
    white: u16,
    word: u32,
) -> Result<(), AllocError> {
    let mut bit = 0x80_0000;
    let mut is_second = false;
    let mut from = 0;
    for end in ends {
        let is_one = word & bit != 0;
        let sample = if is_one == is_second { white } else { black };
        push_samples(bytes, sample, from, *end)?;
        from = *end;
        if is_second {
            bit /= 2;
        }
        is_second = !is_second;
    }
    Ok(())
}

/// Appends a line of the system with this word drawn, or without one where it is 0.
fn push_line(
    bytes: &mut Vec<u8>,
    system: System,
    black: u16,
    white: u16,
    word: u32,
) -> Result<(), AllocError> {
    let (start, end, width) = match system {
        System::Ntsc => (150, 150 + 687, 910),
        System::Pal => (190, 190 + 851, 1135),
    };
    if word == 0 {
        return push_samples(bytes, black, 0, width);
    }
    push_samples(bytes, black, 0, start)?;
    match system {
        System::Ntsc => push_word(bytes, &NTSC_ENDS, black, white, word)?,
        System::Pal => push_word(bytes, &PAL_ENDS, black, white, word)?,
    }
    push_samples(bytes, black, end, width)
}

/// A line of the system with this word drawn.
pub(crate) fn drawn_line(
    alloc: Global,
    system: System,
    black: u16,
    white: u16,
    word: u32,
) -> Result<Vec<u8>, AllocError> {
    let mut bytes = Vec::new(alloc);
    push_line(&mut bytes, system, black, white, word)?;
    Ok(bytes)
}

/// The input of the stored run: 82CFFF drawn with its levels.
pub(crate) fn stored_line(alloc: Global) -> Result<Vec<u8>, AllocError> {
    drawn_line(alloc, System::Ntsc, 8224, 16448, 0x82_CFFF)
}

/// NTSC fields with these words drawn on lines 16, 17 and 18, none for 0, and every other line black.
pub(crate) fn drawn_fields(alloc: Global, fields: &[[u32; 3]]) -> Result<Vec<u8>, AllocError> {
    let black = black_stream(alloc, 245 * 1820)?;
    let mut stream = Vec::new(alloc);
    for words in fields {
        stream.extend_from_slice(front(black.as_slice(), 15 * 1820))?;
        for word in *words {
            push_line(&mut stream, System::Ntsc, 16384, 51200, word)?;
        }
        stream.extend_from_slice(black.as_slice())?;
    }
    Ok(stream)
}

/// What stands before the first record of the NTSC levels 16384 and 51200: 135 bytes.
pub(crate) const HEAD: &str =
    "{\"version\":2,\"videoParameters\":{\"system\":\"NTSC\",\"fieldWidth\":910,\"fieldHeight\":263,\
        \"black16bIre\":16384,\"white16bIre\":51200},\"fields\":[\n";

/// The record of a black field: 92 bytes.
pub(crate) const BLACK: &str = "{\"seqNo\":1,\"vbi\":{\"vbiData\":[0,0,0]},\
        \"vbiCause\":[\"blank\",\"blank\",\"blank\"],\"vbiPass\":[0,0,0]}";

/// The joint and the record of a second one: 94 bytes.
pub(crate) const SECOND_BLACK: &str = ",\n{\"seqNo\":2,\"vbi\":{\"vbiData\":[0,0,0]},\
        \"vbiCause\":[\"blank\",\"blank\",\"blank\"],\"vbiPass\":[0,0,0]}";

/// The tail where no field was cut: 20 bytes.
pub(crate) const TAIL: &str = "\n],\"cutField\":null}\n";

/// The first line of the report of the same levels: 44 bytes.
pub(crate) const REPORT_HEAD: &str = "system NTSC 910x263 black 16384 white 51200\n";

/// The lines of a black field: 58 bytes.
pub(crate) const REPORT_BLACK: &str =
    "field 1 neither\n16 none blank\n17 none blank\n18 none blank\n";

/// The lines of a second one: 58 bytes.
pub(crate) const SECOND_REPORT_BLACK: &str =
    "field 2 neither\n16 none blank\n17 none blank\n18 none blank\n";

/// The last line after one field: 18 bytes.
pub(crate) const REPORT_TAIL: &str = "fields 1 cut none\n";
