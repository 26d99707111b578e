//! A stream that is pushed in pieces.
//!
//! run.rt pulls a stream from a reader; here a caller pushes it, in pieces of any length, and the same document comes.
//! Both advance by `Progress::add_row` and write by texts.rt. What differs is who holds the line: an `Intake` fills it
//! from its reader up to the end, a feeder copies what a piece has of it and waits for the next piece.
//!
//! The state between two pieces is a **position** (`specs/Stream.antt`): how many fields are whole, the bytes held of
//! the unfinished row, and the readings that the unfinished field has so far. It depends on the bytes that came and not
//! on how they were cut (law `pieces_join`). That is why `take_bytes` stops at the end of a row: then each step takes
//! one position to the next, whatever the piece.
//!
//! Rows that nobody reads are copied too, and `take_reading` forgets them. So the bytes of a cut field are one sum
//! wherever the stream ends (`Progress::rest`): whole rows, and what the line holds.
//!
//! The outlet is lent to each call, and the feeder doesn't own it: a caller may keep both in one struct. No contract
//! can ask for the same outlet in each call, so that is left to the caller. A fault may have cut a record off in the
//! middle, so `has_failed` keeps the feeder from writing after it.
//!
//! A new field of `Feeder` has to be seen in `feeding_of` (`specs/Feed.antt`), and what always holds of it said in
//! `IsFeederState`. What is written is changed in document.rt, and when it is written in progress.rt.
ghost use Rattle.std.specs.Prelude.{◌≡◌, ◌≢◌, ℕ, List, ◌+◌, ◌*◌, ◌^◌, ◌<◌, ◌≤◌, ◌↔◌, [], ◌++◌, length, take};
ghost use Rattle.std.specs.Prelude.{IsTrue, OnOk, OnErr, IfOk, IfErr, Err};
ghost use Rattle.vbi_words.specs.Geometry.{width_of, line_bytes};
ghost use Rattle.vbi_line.specs.{Line.IsFull, Line.KeepsPasses, Counted.NoError, Counted.IsSameDevice};
ghost use Rattle.vbi_field.specs.Feed.{IsAt, IsFeedFault, IsFeederState, IsStep, position_in};
ghost use Rattle.vbi_field.specs.Outlet.{counted_of, written_of, CountedUpTo, IsFresh, Rises, Serves, WrotePart};
ghost use Rattle.vbi_field.specs.Document.{head_of};

use crate::config::Config;
use crate::document::Document;
use crate::outlet::Outlet;
use crate::progress::Progress;
use crate::summary::{RunFault, Summary};
use crate::texts::{Kind, end, put};
use std::io::Write;
use std::marker::Model;
use vbi_line::{LineBuf, take_reading};

/// Copies bytes over the first ones.
fn copy_front(to: &mut [u8], from: &[u8])
    requires { length from.now ≤ length to.old }
    ensures { take (length from.now) to.new ≡ from.now }
{
    let count = from.len();
    to[..count].copy_from_slice(from);
}

/// Copies as many bytes as fit into the line, and holds them.
fn copy_in(line: &mut LineBuf, bytes: &[u8]) -> usize
    ensures within { result ≤ length bytes.now }
    ensures held { line.new.held ≡ line.old.held ++ take result bytes.now }
    ensures fits { length line.new.held ≤ line_bytes line.old.system }
    ensures some { 0 < length bytes.now → length line.old.held < line_bytes line.old.system → 0 < result }
    ensures rest { KeepsPasses line.old line.new }
{
    let room = line.room();
    let count = room.len().min(bytes.len());
    copy_front(room, &bytes[..count]);
    line.commit(count);
    count
}

/// Takes the first bytes of a piece, up to the end of a row, and writes the record of a field that is whole now. It
/// answers how many bytes it took.
fn take_bytes<W: Write>(
    config: &Config,
    line: &mut LineBuf,
    progress: &mut Progress,
    bytes: &[u8],
    outlet: &mut Outlet<W>,
) -> Result<usize, RunFault>
    requires stand { IsFeederState config.now line.old progress.old }
    requires some { 0 < length bytes.now }
    requires counts { CountedUpTo (2 ^ 62) outlet.old }
    ensures same { IsSameDevice (counted_of outlet.old) (counted_of outlet.new) }
    ensures stand { IsFeederState config.now line.new progress.new }
    ensures some { IfOk result (λ n. (0 < n) × (n ≤ length bytes.now)) }
    ensures rises { Rises outlet.old outlet.new progress.old.fields progress.new.fields }
    ensures no_error { OnOk result (NoError (counted_of outlet.old) (counted_of outlet.new)) }
    ensures fault { IfErr result (IsFeedFault outlet.old outlet.new) }
    ensures never_failed { result ≢ Err RunFault.Failed }
    ensures step { (z : List ℕ) → IsAt config.now z (position_in config.now line.old progress.old)
        → IsStep W.contents config.now outlet.old outlet.new z bytes.now
        (position_in config.now line.new progress.new) result }
{
    // There is a byte here, so the stream goes on past the last field that is allowed. The byte isn't taken.
    if progress.fields == config.max_fields() {
        return Err(RunFault::TooManyFields);
    }
    let count = copy_in(line, bytes);
    if line.is_full() {
        let reading = take_reading(line, config.levels(), progress.is_selected());
        progress.add_row::<Document, W>(config, reading, &[], outlet)?;
    }
    Ok(count)
}

/// A stream that is pushed in pieces: its config, the bytes of the unfinished row, the readings of the unfinished
/// field, and whether a piece failed. The records of whole fields are written as they come.
#[derive(Drop)]
pub struct Feeder {
    config: Config,
    line: LineBuf,
    progress: Progress,
    has_failed: bool,
}

impl Model for Feeder {
    ghost use Rattle.vbi_field.specs.Feed.{Feeding};

    ghost Value = { Feeding };

    ghost use Rattle.vbi_field.specs.Feed.{feeding_of, IsFeeder};

    ghost view = { feeding_of };

    ghost invariant = { IsFeeder };
}

impl Feeder {
    ghost use Rattle.vbi_field.specs.Feed.{IsEndFault, Begins, Feeds, Finishes};

    /// Writes the head, and begins a stream of which nothing has come. If the writer fails there is no feeder.
    pub fn begin<W: Write>(config: Config, outlet: &mut Outlet<W>) -> Result<Feeder, RunFault>
        requires { IsFresh outlet.old }
        ensures serves { Serves outlet.old outlet.new result }
        ensures rises { Rises outlet.old outlet.new 0 1 }
        ensures begins { IfOk result (λ f. Begins W.contents config outlet.old outlet.new f) }
        ensures write { IfErr result (λ e. e ≡ RunFault.Write (written_of outlet.new)) }
        ensures part { OnErr result (WrotePart W.contents outlet.old outlet.new (head_of config)) }
    {
        put(outlet, Document::head(&config).as_str())?;
        Ok(Feeder {
            config,
            line: LineBuf::new(config.system()),
            progress: Progress::default(),
            has_failed: false,
        })
    }

    /// Takes the next piece of the stream, of any length, and writes the record of each field that is whole now.
    /// `Write` comes if the writer fails, and `TooManyFields` if a byte follows the last field that is allowed,
    /// whose records are written first. After a fault the feeder answers `Failed` to every call and writes nothing
    /// more.
    ///
    /// What is written depends on the pieces alone, and not on how the stream was cut (law `pieces_join`). So the
    /// contract speaks of any bytes z that lead to the feeder's position. A stream has one outlet from begin to end.
    pub fn feed<W: Write>(&mut self, piece: &[u8], outlet: &mut Outlet<W>) -> Result<(), RunFault>
        requires counts { CountedUpTo (2 ^ 61) outlet.old }
        ensures same { IsSameDevice (counted_of outlet.old) (counted_of outlet.new) }
        ensures rises { Rises outlet.old outlet.new self.old.position.fields self.new.position.fields }
        ensures short { length self.new.position.held < line_bytes self.new.config.system }

        // What it wrote, its position in the stream afterwards, and whether it has failed.
        ensures feeds { Feeds W.contents self.old self.new outlet.old outlet.new piece.now result }

        // When it fails, and that it does so for good.
        ensures refused { IsTrue self.old.has_failed ↔ (result ≡ Err RunFault.Failed) }
        ensures unwritten { IsTrue self.old.has_failed → outlet.new ≡ outlet.old }
        ensures no_error { OnOk result (NoError (counted_of outlet.old) (counted_of outlet.new)) }
        ensures fault { IfErr result (IsFeedFault outlet.old outlet.new) }
    {
        if self.has_failed {
            return Err(RunFault::Failed);
        }
        let mut at = 0;
        while at < piece.len() {
            match take_bytes(
                &self.config,
                &mut self.line,
                &mut self.progress,
                &piece[at..],
                outlet,
            ) {
                Ok(count) => at += count,
                Err(fault) => {
                    self.has_failed = true;
                    return Err(fault);
                }
            }
        }
        Ok(())
    }

    /// Writes the tail, and answers the number of fields and the cut. The feeder is gone afterwards, in a fault too.
    pub fn finish<W: Write>(self, outlet: &mut Outlet<W>) -> Result<Summary, RunFault>
        requires counts { CountedUpTo (2 ^ 61) outlet.old }
        ensures same { IsSameDevice (counted_of outlet.old) (counted_of outlet.new) }
        ensures refused { IsTrue self.has_failed ↔ (result ≡ Err RunFault.Failed) }
        ensures unwritten { IsTrue self.has_failed → outlet.new ≡ outlet.old }
        ensures looked { IfOk result (λ s. s.looked ≡ self.looked) }
        ensures few_looks { IfOk result (λ s. s.looked ≤ 6 * width_of self.config.system * (s.fields + 1)) }
        ensures no_error { OnOk result (NoError (counted_of outlet.old) (counted_of outlet.new)) }
        ensures fault { IfErr result (IsEndFault outlet.old outlet.new) }
        ensures finishes { Finishes W.contents self outlet.old outlet.new result }
    {
        if self.has_failed {
            return Err(RunFault::Failed);
        }
        let rest = self.progress.rest(&self.config, self.line.held());
        end::<Document, W>(outlet, self.progress.fields, rest, self.line.looked())
    }
}
