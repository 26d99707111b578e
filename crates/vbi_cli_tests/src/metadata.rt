//! Large metadata: two million bytes of a list of fields are read, and where they are no JSON this is said and the
//! devices aren't asked.

use crate::asserts::{ends, writes};
use crate::jobs::BLACK_FIELD;
use crate::known::{black_stream, repeated};
use crate::runs::{NEVER, NONE, job, run_over};
use std::alloc::{AllocError, Global};
use std::test::Fail;
use vbi_cli::{AppFault, Ended, Verb};
use vbi_meta::MetaFault;
use vbi_test_devices::same;

/// The members of the full metadata of an NTSC capture, and a list that goes on.
const BEFORE: &str =
    "{\"videoParameters\":{\"system\":\"NTSC\",\"fieldWidth\":910,\"fieldHeight\":263,\
        \"black16bIre\":16384,\"white16bIre\":51200,\"sampleRate\":14318181.5},\"fields\":[0";

/// An entry of a list of fields, with the comma before it: 64 bytes.
const FIELD: &str = ",{\"seqNo\":1,\"isFirstField\":true,\"syncConf\":100,\"fileLoc\":123456}";

/// The metadata with 31,250 fields, which are two million bytes, and then this text.
fn two_megabytes(alloc: Global, after: &str) -> Result<Vec<u8>, AllocError> {
    let mut text = Vec::new(alloc);
    text.extend_from_slice(BEFORE.as_bytes())?;
    text.extend_from_slice(repeated(alloc, FIELD.as_bytes(), 31_250)?.as_slice())?;
    text.extend_from_slice(after.as_bytes())?;
    Ok(text)
}

#[test]
fn two_megabytes_that_are_no_json_are_called_so(rt: HostRuntime) -> Result<(), Fail> {
    let alloc = rt.alloc();
    // A list without an end, and one with something at its very end that JSON doesn't have.
    for after in ["", ",NaN]}"] {
        let meta = two_megabytes(alloc, after)?;
        let extract = job(Verb::Extract, NONE);
        let ran = run_over(alloc, &extract, Some(meta.as_slice()), b"some bytes");
        ends(&ran, Err(AppFault::Meta(MetaFault::NotJson)), 1, after)?;
        same(ran.asked, NEVER, after)?;
    }
    Ok(())
}

#[test]
fn two_megabytes_of_metadata_are_read(rt: HostRuntime) -> Result<(), Fail> {
    let alloc = rt.alloc();
    let meta = two_megabytes(alloc, "]}")?;
    let field = black_stream(alloc, 478_660)?;
    let extract = job(Verb::Extract, NONE);
    let ran = run_over(alloc, &extract, Some(meta.as_slice()), field.as_slice());
    let document = BLACK_FIELD.as_bytes();
    writes(&ran, Ok(Ended::Whole), document, "two megabytes")
}
