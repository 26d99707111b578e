//! The vectors of `read_meta`, and the texts of the faults.

use crate::settling::{FULL, NONE};
use std::alloc::{AllocError, Global};
use std::test::Fail;
use vbi_meta::{META_LIMIT, MetaFault, read_meta, settings};
use vbi_test_devices::{holds, same};

/// What bytes are refused for.
pub(crate) fn refusal(alloc: Global, bytes: &[u8]) -> Option<MetaFault> {
    read_meta(alloc, bytes).err()
}

/// Arrays nested this deep, the innermost empty.
fn nested(alloc: Global, depth: usize) -> Result<Vec<u8>, AllocError> {
    let mut text = Vec::new(alloc);
    text.resize(depth, b'[')?;
    text.resize(depth.saturating_mul(2), b']')?;
    Ok(text)
}

/// Depths of arrays, and what they are refused for.
static DEPTHS: [(usize, Option<MetaFault>); 3] = [
    (127, None),
    (128, Some(MetaFault::NotJson)),
    (524_288, Some(MetaFault::NotJson)),
];

/// What metadata that are JSON are refused for, without options.
fn unsettled(alloc: Global, bytes: &[u8]) -> Result<Option<MetaFault>, MetaFault> {
    let value = read_meta(alloc, bytes)?;
    Ok(settings(Some(&value), &NONE).err())
}

#[test]
fn a_document_is_nested_at_most_127_deep(rt: HostRuntime) -> Result<(), Fail> {
    let alloc = rt.alloc();
    for &(depth, fault) in &DEPTHS {
        let text = nested(alloc, depth)?;
        same(refusal(alloc, text.as_slice()), fault, depth)?;
    }
    let text = nested(alloc, 127)?;
    let found = unsettled(alloc, text.as_slice())?;
    same(found, Some(MetaFault::NoVideoParameters), "127 deep")
}

#[test]
fn a_document_over_the_limit_is_too_large(rt: HostRuntime) -> Result<(), Fail> {
    let alloc = rt.alloc();
    same(META_LIMIT, 268_435_456, "the limit")?;
    for (count, fault) in [
        (268_435_457, MetaFault::TooLarge),
        (268_435_456, MetaFault::NotJson),
    ] {
        let bytes: Vec<u8> = vec![in alloc; 0; count]?;
        same(refusal(alloc, bytes.as_slice()), Some(fault), count)?;
    }
    Ok(())
}

static TEXTS: [(MetaFault, &str); 15] = [
    (MetaFault::TooLarge, "metadata too large"),
    (MetaFault::NotJson, "metadata is not JSON"),
    (MetaFault::OutOfMemory, "out of memory"),
    (
        MetaFault::NoVideoParameters,
        "metadata has no videoParameters",
    ),
    (MetaFault::NoSystem, "no system given"),
    (MetaFault::UnknownSystem, "unknown system"),
    (
        MetaFault::SystemsDisagree,
        "system and isSourcePal disagree",
    ),
    (MetaFault::NoBlack, "no black level given"),
    (
        MetaFault::BadBlack,
        "black level is not a whole number from 0 to 65535",
    ),
    (MetaFault::NoWhite, "no white level given"),
    (
        MetaFault::BadWhite,
        "white level is not a whole number from 0 to 65535",
    ),
    (
        MetaFault::LevelsOrder,
        "black level is not below white level",
    ),
    (MetaFault::WidthDiffers, "field width differs"),
    (MetaFault::HeightDiffers, "field height differs"),
    (
        MetaFault::BadMaxFields,
        "max fields is not from 1 to 1000000",
    ),
];

#[test]
fn faults_have_their_texts(rt: HostRuntime) -> Result<(), Fail> {
    for &(fault, text) in &TEXTS {
        let said = fault.to_string(rt.alloc())?;
        same(said.as_str(), text, fault)?;
    }
    Ok(())
}

/// To be run with each allocation failing in turn: the answer is that of ample memory, or that memory ran out.
#[test]
fn want_of_memory_is_answered_as_such(rt: HostRuntime) -> Result<(), Fail> {
    let alloc = rt.alloc();
    match unsettled(alloc, FULL.as_bytes()) {
        Ok(fault) => same(fault, None, "the full metadata")?,
        Err(fault) => same(fault, MetaFault::OutOfMemory, "memory")?,
    }
    let fault = refusal(alloc, b"{\"a\":NaN}");
    let is_named = matches!(fault, Some(MetaFault::NotJson | MetaFault::OutOfMemory));
    holds(is_named, fault)
}
