//! How far a stream has come in whole rows. A stream that is pulled and one that is pushed both advance by this.
//!
//! A field's rows 15, 16 and 17 are its lines 16, 17 and 18, as rows are counted from 0. Of the other rows nothing is
//! kept but their number. The three readings wait here until the field's last row is whole: a field that is cut has no
//! record, so none may be written before.
ghost use Rattle.std.specs.Prelude.{◌≡◌, ◌++◌, ◌+◌, ◌*◌, ◌^◌, ◌↔◌, IsTrue, ◌<◌, ◌≤◌, List, ℕ, length, IfSome, Some};
ghost use Rattle.std.specs.Prelude.{None, OnOk, OnErr, IfErr};
ghost use Rattle.vbi_field.specs.ConfigView.{most_fields, height_of, line_bytes};
ghost use Rattle.vbi_field.specs.Outlet.{written_of, CountedUpTo, Rises, Serves};

use crate::config::Config;
use crate::outlet::Outlet;
use crate::readings::FieldReadings;
use crate::summary::RunFault;
use crate::texts::{Kind, put};
use std::io::Write;
use vbi_words::Reading;

/// The readings of rows 15, 16 and 17 of a field, each once its row is whole: none by default.
#[derive(Clone, Copy, Default)]
pub(crate) struct PartialReadings {
    pub(crate) first: Option<Reading>,
    pub(crate) second: Option<Reading>,
    pub(crate) third: Option<Reading>,
}

impl PartialReadings {
    ghost use Rattle.vbi_field.specs.Progress.{TakesReading, all_of};

    /// Puts the reading of a row in its place, if it has one.
    fn keep(&mut self, row: usize, reading: Option<Reading>)
        ensures { TakesReading row reading self.old self.new }
    {
        match row {
            15 => self.first = reading,
            16 => self.second = reading,
            17 => self.third = reading,
            _ => {}
        }
    }

    /// All three, or `None` if one of the rows isn't whole.
    fn all(&self) -> Option<FieldReadings>
        ensures { result ≡ all_of self.now.first self.now.second self.now.third }
    {
        Some(FieldReadings {
            first: self.first?,
            second: self.second?,
            third: self.third?,
        })
    }
}

/// The number of whole fields, the row of the unfinished one, counted from 0, and its finished readings. No samples.
/// The default is that before the first row.
#[derive(Clone, Copy, Default)]
pub(crate) struct Progress {
    pub(crate) fields: u32,
    pub(crate) row: usize,
    pub(crate) readings: PartialReadings,
}

impl Progress {
    ghost use Rattle.vbi_field.specs.Progress.{HoldsField, IsProgress, IsLineOf, IsWithin, MovesOneRow};
    ghost use Rattle.vbi_field.specs.Progress.{Advances, AddsRow};

    /// Whether the next row is line 16, 17 or 18.
    pub(crate) fn is_selected(&self) -> bool
        ensures { IsTrue result ↔ ((15 ≤ self.now.row) × (self.now.row ≤ 17)) }
    {
        15 <= self.row && self.row <= 17
    }

    /// The bytes of the unfinished field, with those of the unfinished row.
    pub(crate) fn rest(&self, config: &Config, held: usize) -> u32
        requires inside { self.now.row < height_of config.now.system }
        requires held { held ≤ line_bytes config.now.system }
        ensures { result ≡ self.now.row * line_bytes config.now.system + held }
    {
        (self.row * config.line_bytes() + held) as u32
    }

    /// Takes the reading of the next row, if it is selected, and reports the readings of a field that is whole now.
    #[tactic(auto, using(crate::proofs::Growing::within_field, crate::proofs::Growing::past_field))]
    #[inline]
    fn advance(&mut self, config: &Config, reading: Option<Reading>) -> Option<FieldReadings>
        requires { IsWithin config.now self.old }
        ensures inside { self.new.row < height_of config.now.system }
        ensures next { MovesOneRow config.now self.old self.new }
        ensures field { IfSome result (λ _. (self.new.fields ≡ self.old.fields + 1) × (self.new.row ≡ 0)) }
        ensures advances { Advances config.now self.old reading result self.new }
    {
        self.readings.keep(self.row, reading);
        self.row += 1;
        if self.row < config.system().height() {
            return None;
        }
        let whole = self.readings.all();
        self.row = 0;
        self.fields += 1;
        self.readings = PartialReadings::default();
        whole
    }

    /// Takes the reading of the next row, if it is selected, and writes the entry of a field that is whole now.
    pub(crate) fn add_row<K: Kind, W: Write>(
        &mut self,
        config: &Config,
        reading: Option<Reading>,
        held: &[u8],
        outlet: &mut Outlet<W>,
    ) -> Result<(), RunFault>
        requires inside { self.old.row < height_of config.now.system }
        requires few { self.old.fields < most_fields }
        requires held { IsTrue K.KEEPS → length held.now ≡ 3 * line_bytes config.now.system }
        requires counts { CountedUpTo (2 ^ 62) outlet.old }
        ensures serves { Serves outlet.old outlet.new result }
        ensures inside { self.new.row < height_of config.now.system }
        ensures next { MovesOneRow config.now self.old self.new }
        ensures rises { Rises outlet.old outlet.new self.old.fields self.new.fields }
        ensures field { OnErr result (self.new.row ≡ 0) }
        ensures fault { IfErr result (λ e. e ≡ RunFault.Write (written_of outlet.new)) }
        ensures adds { (z b : List ℕ) → IsProgress config.now z self.old
            → IsLineOf config.now b self.old.row reading
            → HoldsField K.KEEPS config.now (z ++ b) self.old held.now
            → AddsRow K.kind W.contents config.now outlet.old outlet.new z b self.new result }
    {
        if let Some(readings) = self.advance(config, reading) {
            put(
                outlet,
                K::entry(config, self.fields - 1, &readings, held).as_str(),
            )?;
        }
        Ok(())
    }
}
