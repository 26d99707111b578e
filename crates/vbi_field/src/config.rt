//! What a run is given.
ghost use Rattle.std.specs.Prelude.{◌≡◌, ◌*◌, ◌<◌, ◌≤◌, ◌↔◌, ◌⊎◌, IfOk, Err};
ghost use Rattle.vbi_field.specs.ConfigView.{most_fields, most_rows, height_of, line_bytes};

use std::marker::Model;
use thiserror::Error;
use vbi_words::{Levels, System};

/// The greatest number of fields that can be allowed in a run: 4.6 times those of an hour of NTSC, a full CLV side.
pub const MAX_FIELDS_LIMIT: u32 = 1_000_000;

/// Why there is no `Config`.
#[derive(Clone, Copy, Debug, PartialEq, Eq, Error)]
pub enum ConfigFault {
    /// The number of fields isn't from 1 to 1,000,000.
    #[error("max fields is not from 1 to 1000000")]
    BadMaxFields,
}

/// A system, its levels, and how many fields a run may have.
#[derive(Clone, Copy, Debug)]
pub struct Config {
    system: System,
    levels: Levels,
    max_fields: u32,
}

impl Model for Config {
    ghost use Rattle.std.specs.Prelude.{◌≤◌};
    ghost use Rattle.vbi_field.specs.ConfigView.{ConfigView, most_fields};

    ghost Value = { ConfigView };

    ghost view = { λ c. record { system = c.system; levels = c.levels; max_fields = c.max_fields } };

    ghost invariant = { λ c. (1 ≤ c.max_fields) × (c.max_fields ≤ most_fields) };

    ghost inverse = { λ v. record { system = v.system; levels = v.levels; max_fields = v.max_fields } };
}

impl Config {
    /// The config of these values; at most `max_fields` fields are allowed in a run.
    pub fn new(system: System, levels: Levels, max_fields: u32) -> Result<Config, ConfigFault>
        ensures ok { IfOk result (λ c. c ≡ record { system = system; levels = levels; max_fields = max_fields }) }
        ensures bad_max_fields { (result ≡ Err ConfigFault.BadMaxFields)
            ↔ ((max_fields < 1) ⊎ (most_fields < max_fields)) }
    {
        if max_fields < 1 || MAX_FIELDS_LIMIT < max_fields {
            return Err(ConfigFault::BadMaxFields);
        }
        Ok(Config {
            system,
            levels,
            max_fields,
        })
    }

    /// A config of these levels, of which nothing but the levels and their system matters.
    pub(crate) fn of_levels(system: System, levels: Levels) -> Config
        ensures { result ≡ record { system = system; levels = levels; max_fields = 1 } }
    {
        Config {
            system,
            levels,
            max_fields: 1,
        }
    }

    /// The television system.
    pub fn system(&self) -> System
        ensures { result ≡ self.now.system }
    {
        self.system
    }

    /// The samples of black and white.
    pub fn levels(&self) -> Levels
        ensures { result ≡ self.now.levels }
    {
        self.levels
    }

    /// The number of fields that are allowed.
    pub fn max_fields(&self) -> u32
        ensures value { result ≡ self.now.max_fields }
        ensures some { 1 ≤ result }
        ensures few { result ≤ most_fields }
    {
        self.max_fields
    }

    /// The number of rows in the fields that are allowed.
    pub(crate) fn row_limit(&self) -> u64
        ensures value { result ≡ self.now.max_fields * height_of self.now.system }
        ensures few { result ≤ most_rows * most_fields }
        ensures fields { self.now.max_fields ≤ most_fields }
    {
        u64::from(self.max_fields) * self.system.height() as u64
    }

    /// The bytes of a line: two a sample.
    pub(crate) fn line_bytes(&self) -> usize
        ensures { result ≡ line_bytes self.now.system }
    {
        self.system.line_bytes()
    }
}
