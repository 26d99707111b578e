//! What metadata and options settle, and for what they are refused: the vectors of `settings`.
//!
//! The order of the tables is that in which faults are looked for: no object `videoParameters` (`EMPTY`), then its
//! members one after another (`REFUSED`, also with options that stand in for members: `OVERRIDDEN`), the sizes of a
//! field by the system (`NTSC_SIZES`, `PAL_SIZES`, `NAMED`), and the limit of fields, last of all. Of two faults the
//! first in this order is the refusal: beside each row with two faults or more there is one with all of them but the
//! first. `SETTLED`, `LIMITS` and `OPTIONS` have what is settled.
//!
//! The order is `IsRefused` of vbi_meta/specs/Settings.antt; a member that is added there gets its rows in both tables.

use std::alloc::{AllocError, Global};
use std::test::Fail;
use vbi_meta::MetaFault::{
    BadBlack, BadMaxFields, BadWhite, HeightDiffers, LevelsOrder, NoBlack, NoSystem,
    NoVideoParameters, NoWhite, SystemsDisagree, UnknownSystem, WidthDiffers,
};
use vbi_meta::{MetaFault, Overrides, read_meta, settings};
use vbi_test_devices::same;
use vbi_words::{Levels, System};

pub(crate) const NONE: Overrides = Overrides {
    system: None,
    black: None,
    white: None,
    max_fields: None,
};

const NTSC: Overrides = Overrides {
    system: Some(System::Ntsc),
    ..NONE
};

const PAL: Overrides = Overrides {
    system: Some(System::Pal),
    ..NONE
};

const PAL_BLACK: Overrides = Overrides {
    black: Some(16384),
    ..PAL
};

const NTSC_LEVELS: Overrides = Overrides {
    black: Some(16384),
    white: Some(51200),
    ..NTSC
};

const PAL_LEVELS: Overrides = Overrides {
    white: Some(51200),
    ..PAL_BLACK
};

const ALL: Overrides = Overrides {
    max_fields: Some(5),
    ..NTSC_LEVELS
};

/// What settings hold: system, black, white and limit.
pub(crate) type Settled = (System, u16, u16, u32);

fn held(system: System, levels: Levels, max_fields: u32) -> Settled {
    (system, levels.black(), levels.white(), max_fields)
}

/// The settings of a document.
pub(crate) fn settled(
    alloc: Global,
    text: &str,
    overrides: &Overrides,
) -> Result<Settled, MetaFault> {
    let value = read_meta(alloc, text.as_bytes())?;
    let config = settings(Some(&value), overrides)?;
    Ok(held(config.system(), config.levels(), config.max_fields()))
}

/// The document with this inner text of `videoParameters`.
pub(crate) fn document(alloc: Global, members: &str) -> Result<String, AllocError> {
    format!(in alloc; "{{\"videoParameters\":{{{members}}}}}")
}

/// Overrides with this limit.
fn limited(overrides: &Overrides, max_fields: u32) -> Overrides {
    Overrides {
        max_fields: Some(max_fields),
        ..*overrides
    }
}

/// Documents without an object `videoParameters`, which have other faults as well.
static EMPTY: [&str; 8] = [
    "[]",
    "3",
    "{}",
    r#"{"videoParameters":3}"#,
    r#"{"videoParameters":[]}"#,
    r#"{"videoParameters":null}"#,
    r#"{"system":"PAL","black16bIre":1,"white16bIre":0}"#,
    r#"{"videoparameters":{"system":"PAL_M"}}"#,
];

#[test]
fn documents_without_parameters_are_refused(rt: HostRuntime) -> Result<(), Fail> {
    for &text in &EMPTY {
        for overrides in [NONE, ALL, limited(&NONE, 0)] {
            let found = settled(rt.alloc(), text, &overrides);
            same(found, Err(NoVideoParameters), text)?;
        }
    }
    Ok(())
}

/// Fails where metadata with these members aren't refused for this with some overrides, or with a limit of no field
/// besides, which is the last of all faults.
pub(crate) fn refuses(
    alloc: Global,
    members: &str,
    overrides: &Overrides,
    fault: MetaFault,
) -> Result<(), Fail> {
    let text = document(alloc, members)?;
    let found = settled(alloc, text.as_str(), &limited(overrides, 0));
    same(found, Err(fault), (members, "no field"))?;
    let found = settled(alloc, text.as_str(), overrides).err();
    let expected = match fault {
        BadMaxFields => None,
        _ => Some(fault),
    };
    same(found, expected, members)
}

/// Members, and the first of their faults. Beside each row with two faults or more there is one with all of them but
/// the first.
static REFUSED: [(&str, MetaFault); 29] = [
    ("", NoSystem),
    (r#""system":"PAL""#, NoBlack),
    (r#""black16bIre":-1"#, NoSystem),
    (r#""black16bIre":-1,"isSourcePal":true"#, BadBlack),
    (r#""system":"PAL_M""#, UnknownSystem),
    (r#""system":null,"isSourcePal":true"#, UnknownSystem),
    (r#""system":"NTSC","isSourcePal":"no""#, UnknownSystem),
    (r#""isSourcePal":null"#, UnknownSystem),
    (r#""isSourcePal":1"#, UnknownSystem),
    (r#""isSourcePal":true"#, NoBlack),
    (r#""system":"X","black16bIre":-1"#, UnknownSystem),
    (r#""system":"pal","black16bIre":"0""#, UnknownSystem),
    (r#""system":"PAL","black16bIre":"0""#, BadBlack),
    (r#""system":"PAL","isSourcePal":false"#, SystemsDisagree),
    (r#""system":"PAL","isSourcePal":true"#, NoBlack),
    (r#""system":"NTSC","isSourcePal":true"#, SystemsDisagree),
    (r#""system":"NTSC","isSourcePal":false"#, NoBlack),
    (
        r#""system":"NTSC","isSourcePal":true,"black16bIre":65536"#,
        SystemsDisagree,
    ),
    (r#""system":"PAL","white16bIre":"x""#, NoBlack),
    (r#""system":"PAL","black16bIre":-1"#, BadBlack),
    (r#""system":"PAL","black16bIre":65536"#, BadBlack),
    (r#""system":"PAL","black16bIre":65535"#, NoWhite),
    (r#""system":"NTSC","black16bIre":65536"#, BadBlack),
    (r#""system":"NTSC","black16bIre":null"#, BadBlack),
    (r#""system":"NTSC","black16bIre":16384e0"#, BadBlack),
    (r#""system":"NTSC","black16bIre":16384.0"#, BadBlack),
    (r#""system":"NTSC","black16bIre":16384"#, NoWhite),
    (
        r#""system":"PAL","black16bIre":9,"white16bIre":9"#,
        LevelsOrder,
    ),
    (
        r#""system":"NTSC","black16bIre":8,"white16bIre":9"#,
        BadMaxFields,
    ),
];

/// Fails where one of these rows, after such members, isn't refused for its fault.
fn refuses_each(
    alloc: Global,
    before: &str,
    overrides: &Overrides,
    rows: &[(&str, MetaFault)],
) -> Result<(), Fail> {
    for &(members, fault) in rows {
        let members = format!(in alloc; "{before}{members}")?;
        refuses(alloc, members.as_str(), overrides, fault)?;
    }
    Ok(())
}

#[test]
fn of_two_faults_the_first_in_order_is_the_refusal(rt: HostRuntime) -> Result<(), Fail> {
    refuses_each(rt.alloc(), "", &NONE, &REFUSED)
}

/// Members with overrides, and the refusal of the first fault: each override replaces its member whatever that holds.
static OVERRIDDEN: [(&str, Overrides, MetaFault); 20] = [
    ("", NTSC, NoBlack),
    ("", NTSC_LEVELS, BadMaxFields),
    (r#""system":"NTSC","isSourcePal":"no""#, NTSC, NoBlack),
    (r#""system":3,"black16bIre":{}"#, NTSC, BadBlack),
    (r#""system":"NTSC","isSourcePal":true"#, PAL, NoBlack),
    (r#""black16bIre":true,"white16bIre":true"#, PAL, BadBlack),
    (r#""black16bIre":-1"#, PAL_BLACK, NoWhite),
    (r#""white16bIre":true"#, PAL_BLACK, BadWhite),
    (r#""white16bIre":"x""#, PAL_BLACK, BadWhite),
    (r#""white16bIre":-1"#, PAL_BLACK, BadWhite),
    (r#""white16bIre":65536"#, PAL_BLACK, BadWhite),
    (r#""white16bIre":65535"#, PAL_BLACK, BadMaxFields),
    (r#""white16bIre":16384"#, PAL_BLACK, LevelsOrder),
    (r#""white16bIre":0"#, PAL_BLACK, LevelsOrder),
    // Before sizes that are wrong.
    (r#""fieldWidth":1134"#, PAL_BLACK, NoWhite),
    (r#""fieldWidth":1,"white16bIre":[]"#, PAL_BLACK, BadWhite),
    (r#""fieldWidth":1,"white16bIre":9"#, PAL_BLACK, LevelsOrder),
    (r#""fieldHeight":1,"white16bIre":9"#, PAL_BLACK, LevelsOrder),
    (r#""fieldWidth":1134"#, PAL_LEVELS, WidthDiffers),
    (r#""fieldHeight":1"#, PAL_LEVELS, HeightDiffers),
];

#[test]
fn options_stand_in_for_members_in_the_same_order(rt: HostRuntime) -> Result<(), Fail> {
    for &(members, overrides, fault) in &OVERRIDDEN {
        refuses(rt.alloc(), members, &overrides, fault)?;
    }
    Ok(())
}

/// Sizes of a field, and what they are refused for where the system is NTSC: that of the other system, one off, or no
/// whole number.
static NTSC_SIZES: [(&str, MetaFault); 9] = [
    (r#""fieldHeight":312,"fieldWidth":null"#, WidthDiffers),
    (r#""fieldHeight":264,"fieldWidth":911"#, WidthDiffers),
    (r#""fieldHeight":264,"fieldWidth":910"#, HeightDiffers),
    (r#""fieldWidth":910.0"#, WidthDiffers),
    (r#""fieldWidth":1135"#, WidthDiffers),
    (r#""fieldHeight":null"#, HeightDiffers),
    (r#""fieldHeight":"263""#, HeightDiffers),
    (r#""fieldHeight":313"#, HeightDiffers),
    (r#""fieldWidth":910,"fieldHeight":263"#, BadMaxFields),
];

/// Sizes, and their refusal, where the system is PAL.
static PAL_SIZES: [(&str, MetaFault); 9] = [
    (r#""fieldHeight":312,"fieldWidth":{}"#, WidthDiffers),
    (r#""fieldWidth":1136,"fieldHeight":314"#, WidthDiffers),
    (r#""fieldWidth":1135,"fieldHeight":314"#, HeightDiffers),
    (r#""fieldWidth":1135.0"#, WidthDiffers),
    (r#""fieldWidth":910"#, WidthDiffers),
    (r#""fieldHeight":312"#, HeightDiffers),
    (r#""fieldHeight":"313""#, HeightDiffers),
    (r#""fieldHeight":263"#, HeightDiffers),
    (r#""fieldWidth":1135,"fieldHeight":313"#, BadMaxFields),
];

/// How metadata name a system, with levels that are in order.
static NAMED: [(&str, System); 4] = [
    (r#""isSourcePal":false"#, System::Ntsc),
    (r#""isSourcePal":true"#, System::Pal),
    (r#""system":"NTSC""#, System::Ntsc),
    (r#""system":"PAL""#, System::Pal),
];

/// Levels that are in order, as they follow another member.
pub(crate) const LEVELS: &str = r#","black16bIre":0,"white16bIre":65535"#;

/// Fails where members with levels that are in order don't settle this system.
pub(crate) fn names(
    alloc: Global,
    members: &str,
    overrides: &Overrides,
    system: System,
) -> Result<(), Fail> {
    let members = format!(in alloc; "{members}{LEVELS}")?;
    let text = document(alloc, members.as_str())?;
    let found = settled(alloc, text.as_str(), overrides);
    same(found, Ok((system, 0, 65535, 1_000_000)), members)
}

/// Fails where a name doesn't settle this system, or sizes aren't refused beside it as they are with this system.
fn has_its_sizes(alloc: Global, name: &str, system: System) -> Result<(), Fail> {
    names(alloc, name, &NONE, system)?;
    let members = format!(in alloc; "{name}{LEVELS},")?;
    let sizes = match system {
        System::Ntsc => &NTSC_SIZES,
        System::Pal => &PAL_SIZES,
    };
    refuses_each(alloc, members.as_str(), &NONE, sizes)
}

#[test]
fn sizes_are_those_of_the_system(rt: HostRuntime) -> Result<(), Fail> {
    let alloc = rt.alloc();
    refuses_each(alloc, "", &NTSC_LEVELS, &NTSC_SIZES)?;
    refuses_each(alloc, "", &PAL_LEVELS, &PAL_SIZES)?;
    for &(name, system) in &NAMED {
        has_its_sizes(alloc, name, system)?;
    }
    Ok(())
}

/// The whole metadata of an NTSC capture.
pub(crate) const FULL: &str =
    r#"{"videoParameters":{"system":"NTSC","fieldWidth":910,"fieldHeight":263,
    "black16bIre":16384,"white16bIre":51200,"sampleRate":14318181.5},"fields":[]}"#;

/// The whole metadata of a PAL capture, with members that have to be replaced.
const REPLACED: &str =
    r#"{"videoParameters":{"system":[],"isSourcePal":null,"fieldWidth":1135,"fieldHeight":313,
    "black16bIre":16384.0,"white16bIre":"x"},"fields":[]}"#;

/// Metadata, overrides, and what they settle.
static SETTLED: [(&str, Overrides, Settled); 3] = [
    (FULL, NONE, (System::Ntsc, 16384, 51200, 1_000_000)),
    (FULL, ALL, (System::Ntsc, 16384, 51200, 5)),
    (REPLACED, PAL_LEVELS, (System::Pal, 16384, 51200, 1_000_000)),
];

/// Limits of fields, and whether they are refused.
static LIMITS: [(u32, bool); 4] = [(0, true), (1, false), (1_000_000, false), (1_000_001, true)];

#[test]
fn the_full_metadata_settles_a_run(rt: HostRuntime) -> Result<(), Fail> {
    let alloc = rt.alloc();
    for &(text, overrides, expected) in &SETTLED {
        same(settled(alloc, text, &overrides), Ok(expected), text)?;
    }
    for &(fields, is_refused) in &LIMITS {
        let expected = if is_refused {
            Err(BadMaxFields)
        } else {
            Ok((System::Ntsc, 16384, 51200, fields))
        };
        let found = settled(alloc, FULL, &limited(&NONE, fields));
        same(found, expected, fields)?;
    }
    Ok(())
}

/// Options without metadata, and what they settle or are refused for.
static OPTIONS: [(Overrides, Result<Settled, MetaFault>); 7] = [
    (NONE, Err(NoSystem)),
    (NTSC, Err(NoBlack)),
    (PAL, Err(NoBlack)),
    (PAL_BLACK, Err(NoWhite)),
    (NTSC_LEVELS, Ok((System::Ntsc, 16384, 51200, 1_000_000))),
    (PAL_LEVELS, Ok((System::Pal, 16384, 51200, 1_000_000))),
    (ALL, Ok((System::Ntsc, 16384, 51200, 5))),
];

#[test]
fn options_alone_settle_a_run() -> Result<(), Fail> {
    for &(overrides, expected) in &OPTIONS {
        let found = match settings(None, &overrides) {
            Ok(config) => Ok(held(config.system(), config.levels(), config.max_fields())),
            Err(fault) => Err(fault),
        };
        same(found, expected, overrides)?;
    }
    Ok(())
}
