//! The settings of a run, from metadata and the options of the command line.

ghost use Rattle.std.specs.Prelude.{◌≡◌, ◌<◌, ◌≤◌, ◌^◌, Option, Some, None, IfOk, IfErr, OnOk};
ghost use Rattle.std.specs.Prelude.{option_map, option_and_then};
ghost use Rattle.serde_json.specs.View.{view};
ghost use Rattle.vbi_field.specs.ConfigView.{most_fields};
ghost use Rattle.vbi_meta.specs.Settings.{parameters_of, member_of, named_system, flagged_system, chosen_system};
ghost use Rattle.vbi_meta.specs.Settings.{chosen_level, chosen_limit, document_refusals, system_refusals};
ghost use Rattle.vbi_meta.specs.Settings.{level_refusals, order_refusals, size_refusals, limit_refusals, first_refusal};
ghost use Rattle.vbi_meta.specs.{DocumentValue.IsConfig, Settings.IsRefused, Settings.IsSettled};

use crate::fault::MetaFault;
use serde_json::Value;
use vbi_field::{Config, MAX_FIELDS_LIMIT};
use vbi_words::{Levels, System};

/// What the options of the command line put in place of metadata; None if an option isn't given.
#[derive(Clone, Copy, Debug, PartialEq, Eq)]
pub struct Overrides {
    /// In place of `system` and `isSourcePal`.
    pub system: Option<System>,
    /// The sample of black, in place of `black16bIre`.
    pub black: Option<u16>,
    /// The sample of white, in place of `white16bIre`.
    pub white: Option<u16>,
    /// The most fields of a run; no metadata has it, and it is 1,000,000 if it isn't given.
    pub max_fields: Option<u32>,
}

/// The settings of a run: system, levels and the most fields. `value` is the metadata document, if there is one. An
/// option stands before its member, which then isn't looked at; other members than those named in `Overrides`,
/// `fieldWidth` and `fieldHeight` are never looked at.
#[tactic(auto, using(crate::proofs::Refusals::first_refusal_append), unfolding(crate::specs::Settings::refusals_of))]
pub fn settings(value: Option<&Value>, overrides: &Overrides) -> Result<Config, MetaFault>
    ensures ok { IfOk result (IsSettled (option_map (λ v. view v.now) value.entry) overrides.now) }
    ensures err { IfErr result (IsRefused (option_map (λ v. view v.now) value.entry) overrides.now) }

    // What the laws of the document read back ask of a config.
    ensures numbers { IfOk result IsConfig }
{
    // Of several faults the first one is reported, in an order that docs/FORMATS.md promises: that of these calls.
    let parameters = parameters(value)?;
    let name = member(parameters, "system");
    let flag = member(parameters, "isSourcePal");
    let system = system(overrides.system, name, flag)?;
    let black = level(
        overrides.black,
        member(parameters, "black16bIre"),
        MetaFault::NoBlack,
        MetaFault::BadBlack,
    )?;
    let white = level(
        overrides.white,
        member(parameters, "white16bIre"),
        MetaFault::NoWhite,
        MetaFault::BadWhite,
    )?;
    let levels = ordered(black, white)?;
    let width = member(parameters, "fieldWidth");
    let height = member(parameters, "fieldHeight");
    check_size(width, system.width(), MetaFault::WidthDiffers)?;
    check_size(height, system.height(), MetaFault::HeightDiffers)?;
    config(system, levels, overrides.max_fields)
}

/// The document's `videoParameters`; None if there is no document.
#[tactic(auto, unfolding(crate::specs::Settings::document_refusals, crate::specs::Settings::first_refusal))]
fn parameters(document: Option<&Value>) -> Result<Option<&Value>, MetaFault>
    ensures ok { IfOk result (λ p. let d = option_map (λ v. view v.now) document.entry in
        (first_refusal (document_refusals d) ≡ None)
        × (option_map (λ v. view v.now) p ≡ option_and_then parameters_of d)) }
    ensures err { IfErr result (λ e.
        first_refusal (document_refusals (option_map (λ v. view v.now) document.entry)) ≡ Some e) }
{
    let Some(document) = document else {
        return Ok(None);
    };
    match document.get("videoParameters") {
        Some(parameters) if parameters.is_object() => Ok(Some(parameters)),
        _ => Err(MetaFault::NoVideoParameters),
    }
}

/// The member of this name, if it is there.
fn member<'v>(parameters: Option<&'v Value>, name: &str) -> Option<&'v Value>
    ensures { option_map (λ v. view v.now) result
        ≡ member_of (option_map (λ v. view v.now) parameters.entry) name.now }
{
    parameters?.get(name)
}

/// The system of the option, else of the members `system` and `isSourcePal`.
#[tactic(auto, unfolding(crate::specs::Settings::system_refusals, crate::specs::Settings::first_refusal))]
fn system(
    given: Option<System>,
    name: Option<&Value>,
    flag: Option<&Value>,
) -> Result<System, MetaFault>
    ensures ok { IfOk result (λ s.
        let n = option_map (λ v. view v.now) name.entry in
        let f = option_map (λ v. view v.now) flag.entry in
        (first_refusal (system_refusals given n f) ≡ None) × (chosen_system given n f ≡ Some s)) }
    ensures err { IfErr result (λ e.
        let n = option_map (λ v. view v.now) name.entry in
        let f = option_map (λ v. view v.now) flag.entry in
        first_refusal (system_refusals given n f) ≡ Some e) }
{
    if let Some(system) = given {
        return Ok(system);
    }
    // Both members are read before they are compared: if one of them is no system, that is the fault, and not that
    // the two disagree.
    let named = match name {
        None => None,
        Some(text) => Some(named(text).ok_or(MetaFault::UnknownSystem)?),
    };
    let flagged = match flag {
        None => None,
        Some(value) => Some(flagged(value).ok_or(MetaFault::UnknownSystem)?),
    };
    match (named, flagged) {
        (None, None) => Err(MetaFault::NoSystem),
        (Some(system), None) | (None, Some(system)) => Ok(system),
        (Some(system), Some(other)) if system == other => Ok(system),
        _ => Err(MetaFault::SystemsDisagree),
    }
}

/// The system that the text `NTSC` or `PAL` names.
fn named(text: &Value) -> Option<System>
    ensures { result ≡ named_system (view text.now) }
{
    System::named(text.as_str()?)
}

/// The system that a truth value stands for: whether the source is PAL.
fn flagged(flag: &Value) -> Option<System>
    ensures { result ≡ flagged_system (view flag.now) }
{
    let is_pal = flag.as_bool()?;
    Some(if is_pal { System::Pal } else { System::Ntsc })
}

/// A level: that of the option, else the member, whose two faults these are.
#[tactic(auto, unfolding(crate::specs::Settings::level_refusals, crate::specs::Settings::first_refusal))]
fn level(
    given: Option<u16>,
    member: Option<&Value>,
    missing: MetaFault,
    bad: MetaFault,
) -> Result<u16, MetaFault>
    ensures ok { IfOk result (λ n. let m = option_map (λ v. view v.now) member.entry in
        (first_refusal (level_refusals missing bad given m) ≡ None) × (chosen_level given m ≡ Some n)) }
    ensures err { IfErr result (λ e. let m = option_map (λ v. view v.now) member.entry in
        first_refusal (level_refusals missing bad given m) ≡ Some e) }
{
    if let Some(level) = given {
        return Ok(level);
    }
    // A number with a decimal point is none here: rounding it would make a level that the metadata hasn't got.
    let level = member.ok_or(missing)?.as_u64().ok_or(bad)?;
    u16::try_from(level).map_err(|_| bad)
}

/// The levels, if black is below white.
#[tactic(auto, unfolding(crate::specs::Settings::order_refusals, crate::specs::Settings::first_refusal))]
fn ordered(black: u16, white: u16) -> Result<Levels, MetaFault>
    ensures ok { IfOk result (λ l. (first_refusal (order_refusals black white) ≡ None)
        × (l.black ≡ black) × (l.white ≡ white)) }
    ensures range { IfOk result (λ l. (l.black < 2 ^ 16) × (l.white < 2 ^ 16)) }
    ensures err { IfErr result (λ e. first_refusal (order_refusals black white) ≡ Some e) }
{
    Levels::new(black, white).map_err(|_| MetaFault::LevelsOrder)
}

/// Refuses a member that is there and isn't this size.
#[tactic(auto, unfolding(crate::specs::Settings::size_refusals, crate::specs::Settings::first_refusal))]
fn check_size(member: Option<&Value>, size: usize, differs: MetaFault) -> Result<(), MetaFault>
    ensures ok { OnOk result
        (first_refusal (size_refusals differs size (option_map (λ v. view v.now) member.entry)) ≡ None) }
    ensures err { IfErr result (λ e.
        first_refusal (size_refusals differs size (option_map (λ v. view v.now) member.entry)) ≡ Some e) }
{
    let Some(member) = member else {
        return Ok(());
    };
    match member.as_u64() {
        Some(n) if n == size as u64 => Ok(()),
        _ => Err(differs),
    }
}

/// The settings with the option's limit on fields, or the usual one.
#[tactic(auto, unfolding(crate::specs::Settings::limit_refusals, crate::specs::Settings::first_refusal))]
fn config(system: System, levels: Levels, limit: Option<u32>) -> Result<Config, MetaFault>
    ensures ok { IfOk result (λ c. (first_refusal (limit_refusals limit) ≡ None)
        × (c.system ≡ system) × (c.levels ≡ levels) × (c.max_fields ≡ chosen_limit limit)) }
    ensures few { IfOk result (λ c. c.max_fields ≤ most_fields) }
    ensures err { IfErr result (λ e. first_refusal (limit_refusals limit) ≡ Some e) }
{
    let most = limit.unwrap_or(MAX_FIELDS_LIMIT);
    Config::new(system, levels, most).map_err(|_| MetaFault::BadMaxFields)
}
