//! How metadata name the system: what each kind of JSON means as `isSourcePal` and as `system`.

use crate::settling::{LEVELS, NONE, names, refuses};
use std::alloc::Global;
use std::test::Fail;
use vbi_meta::MetaFault::UnknownSystem;
use vbi_meta::Overrides;
use vbi_words::System;

/// Values that are neither a truth value nor the name of a system.
static NEITHER: [&str; 10] = [
    "0",
    "1",
    "2",
    "-1",
    "0.5",
    "null",
    r#""""#,
    r#""true""#,
    "[]",
    "{}",
];

/// More values that are no truth value. Languages differ on which of them they take for one.
static NO_FLAGS: [&str; 5] = [
    r#""false""#,
    r#""PAL""#,
    r#""NTSC""#,
    "[true]",
    r#"{"isSourcePal":true}"#,
];

/// More values that aren't the text `NTSC` or `PAL`: other kinds of JSON, names of other systems, and texts that differ
/// in case or have a letter more or one less.
static NO_NAMES: [&str; 20] = [
    "true",
    "false",
    r#"["PAL"]"#,
    r#"{"system":"PAL"}"#,
    r#""NTSC-J""#,
    r#""NTSC_J""#,
    r#""PAL-M""#,
    r#""PAL_M""#,
    r#""pal""#,
    r#""Pal""#,
    r#""ntsc""#,
    r#""PA""#,
    r#""AL""#,
    r#""NTS""#,
    r#""TSC""#,
    r#""PALX""#,
    r#""NTSCX""#,
    r#"" PAL""#,
    r#""PAL ""#,
    r#""NTSC\u0000""#,
];

/// Fails where members with levels that are in order don't make the system unknown.
fn is_unknown(alloc: Global, members: &str) -> Result<(), Fail> {
    let members = format!(in alloc; "{members}{LEVELS}")?;
    refuses(alloc, members.as_str(), &NONE, UnknownSystem)
}

/// Fails where a member before another one, or after it, doesn't make the system unknown.
fn is_unknown_beside(alloc: Global, member: &str, other: &str) -> Result<(), Fail> {
    let members = format!(in alloc; "{member},{other}")?;
    is_unknown(alloc, members.as_str())?;
    let members = format!(in alloc; "{other},{member}")?;
    is_unknown(alloc, members.as_str())
}

/// Fails where an option doesn't stand in for a member.
fn gives_way(alloc: Global, member: &str, system: System) -> Result<(), Fail> {
    let given = Overrides {
        system: Some(system),
        ..NONE
    };
    names(alloc, member, &given, system)
}

/// Fails where a member doesn't make the system unknown, alone, with levels that are in order, and before or after the
/// other member, whatever that says; and where an option doesn't stand in for it.
fn makes_it_unknown(alloc: Global, member: &str, others: &[&str]) -> Result<(), Fail> {
    refuses(alloc, member, &NONE, UnknownSystem)?;
    is_unknown(alloc, member)?;
    for other in others {
        is_unknown_beside(alloc, member, other)?;
    }
    gives_way(alloc, member, System::Ntsc)?;
    gives_way(alloc, member, System::Pal)
}

/// Fails where a member with one of these values doesn't make the system unknown, as above.
fn make_it_unknown(
    alloc: Global,
    name: &str,
    values: &[&str],
    others: &[&str],
) -> Result<(), Fail> {
    for value in values {
        let member = format!(in alloc; "\"{name}\":{value}")?;
        makes_it_unknown(alloc, member.as_str(), others)?;
    }
    Ok(())
}

#[test]
fn a_flag_is_true_or_false(rt: HostRuntime) -> Result<(), Fail> {
    let alloc = rt.alloc();
    names(alloc, r#""isSourcePal":true"#, &NONE, System::Pal)?;
    names(alloc, r#""isSourcePal":false"#, &NONE, System::Ntsc)?;
    let others = [r#""system":"NTSC""#, r#""system":"PAL""#];
    make_it_unknown(alloc, "isSourcePal", &NEITHER, &others)?;
    make_it_unknown(alloc, "isSourcePal", &NO_FLAGS, &others)
}

#[test]
fn a_name_is_that_of_a_system(rt: HostRuntime) -> Result<(), Fail> {
    let alloc = rt.alloc();
    names(alloc, r#""system":"PAL""#, &NONE, System::Pal)?;
    names(alloc, r#""system":"NTSC""#, &NONE, System::Ntsc)?;
    let others = [r#""isSourcePal":true"#, r#""isSourcePal":false"#];
    make_it_unknown(alloc, "system", &NEITHER, &others)?;
    make_it_unknown(alloc, "system", &NO_NAMES, &others)
}
