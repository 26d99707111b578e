//! The words of drawn fields come back, pulled and pushed.

use crate::feeding::feeds_chunks;
use crate::fields::config;
use crate::known::{HEAD, PAL_HEAD, PAL_WORDS, TAIL, WORDS};
use crate::runs::{StreamText, drew, undisturbed, whole, writes};
use std::test::Fail;
use vbi_test_devices::{Paper, Tape, same};
use vbi_words::System;

/// A text of words, and the head and the record of its field's document.
static CIRCLES: [(System, &str, &str, &str); 2] = [
    (System::Ntsc, "82CFFF F12345 F12345\n", HEAD, WORDS),
    (System::Pal, "8AE012 87FFFF F0DD00", PAL_HEAD, PAL_WORDS),
];

#[test]
fn drawn_words_come_back(rt: HostRuntime) -> Result<(), Fail> {
    let alloc = rt.alloc();
    for &(system, words, head, record) in &CIRCLES {
        let config = config(system, 5)?;
        let mut stream = Paper::new(alloc);
        let run = drew(&config, Tape::new(words.as_bytes()), &mut stream);
        same(run.result, Ok(1), system)?;
        let field = stream.taken.as_slice();
        let ended = whole(1, None, 3 * system.width() as u64);
        let texts = [head, record, TAIL];
        let wanted = undisturbed(field, ended, &texts);
        writes(alloc, StreamText::Extract, &config, field, wanted)?;
        feeds_chunks(alloc, config, field, 1821, wanted)?;
    }
    Ok(())
}
