//! The document and the report of a whole stream, pulled from a reader.
//!
//! `run` is the one loop, over the kind of text (`Kind`, texts.rt). A line is read into the intake's one array. The
//! kinds with recovered words keep the bytes of rows 15, 16 and 17 besides, in room that their caller here has; the
//! other two have no such room.
ghost use Rattle.std.specs.Prelude.{◌≡◌, ◌⊎◌, ◌+◌, ◌*◌, ◌^◌, ◌≤◌, ◌++◌, [], length, take, drop, IsTrue, IfErr};
ghost use Rattle.vbi_line.specs.{Counted.IsSameDevice, Intake.counted_of, Intake.held_of, Intake.line_of};
ghost use Rattle.vbi_line.specs.{Intake.IsFresh};
ghost use Rattle.vbi_field.specs.Texts.{document, recovered_document, report, recovered_report};
ghost use Rattle.vbi_field.specs.{Extracts.AreSameDevices, Extracts.IsAtLineStart, Extracts.Runs};
ghost use Rattle.vbi_field.specs.{Extracts.TakesLine, Extracts.EndsAtLimit, Ran.over, ConfigView.line_bytes};
ghost use Rattle.vbi_field.specs.{Progress.HoldsOn, Progress.IsWithin};
ghost use Rattle.vbi_field.specs.Outlet as outlets;

use crate::config::Config;
use crate::document::Document;
use crate::outlet::Outlet;
use crate::progress::Progress;
use crate::recovered_document::RecoveredDocument;
use crate::report::{RecoveredReport, Report};
use crate::summary::{RunFault, Summary};
use crate::texts::{HELD_SIZE, Kind, end, put};
use std::io::{Read, Write};
use vbi_line::{Filled, Intake};

/// Fills the line. A fault of the reader names the field and the byte to which the stream has come.
fn fill_line<R: Read>(
    config: &Config,
    progress: &Progress,
    intake: &mut Intake<R>,
) -> Result<Filled, RunFault>
    requires within { IsWithin config.now progress.now }
    requires line { IsAtLineStart config.now.system intake.old }
    ensures same { IsSameDevice (counted_of intake.old) (counted_of intake.new) }
    ensures takes { TakesLine R.remaining intake.old intake.new result }
    ensures fault { IfErr result (λ e. e ≡ RunFault.Read (progress.now.fields + 1)
        (progress.now.row * line_bytes config.now.system + length (held_of intake.new))) }
{
    match intake.fill_line() {
        Ok(filled) => Ok(filled),
        Err(_) => Err(RunFault::Read {
            field: progress.fields + 1,
            offset: progress.rest(config, intake.held()),
        }),
    }
}

/// Copies a row over the bytes from one place on.
fn copy_row(held: &mut [u8], from: usize, row: &[u8])
    requires { from + length row.now ≤ length held.old }
    ensures { held.new ≡ take from held.old ++ (row.now ++ drop (from + length row.now) held.old) }
{
    held[from..from + row.len()].copy_from_slice(row);
}

/// Puts the row that is held whole in its place among rows 15, 16 and 17, if these are kept and it has one.
fn keep_row<K: Kind, R: Read>(
    config: &Config,
    progress: &Progress,
    intake: &Intake<R>,
    held: &mut [u8],
)
    requires full { length (held_of intake.now) ≡ line_bytes config.now.system }
    requires room { IsTrue K.KEEPS → length held.old ≡ 3 * line_bytes config.now.system }
    ensures long { length held.new ≡ length held.old }
    ensures holds { IsTrue K.KEEPS
        → HoldsOn config.now.system progress.now.row (held_of intake.now) held.old held.new }
{
    if K::KEEPS && progress.is_selected() {
        let size = config.line_bytes();
        let from = size * (progress.row - 15);
        copy_row(held, from, intake.bytes());
    }
}

/// Ends a run after as many whole fields as are allowed. The stream has to end here, and only another read can show
/// whether it does.
fn end_at_limit<K: Kind, R: Read, W: Write>(
    config: &Config,
    progress: &Progress,
    intake: &mut Intake<R>,
    outlet: &mut Outlet<W>,
) -> Result<Summary, RunFault>
    requires within { IsWithin config.now progress.now }
    requires line { IsAtLineStart config.now.system intake.old }
    requires passes { (line_of intake.old).cursors ≡ [] }
    requires looked { (line_of intake.old).looked ≤ 2 ^ 61 }
    requires counts { outlets.CountedUpTo (2 ^ 62) outlet.old }
    ensures same { AreSameDevices intake.old intake.new outlet.old outlet.new }
    ensures ends { EndsAtLimit K.kind R.remaining W.contents progress.now.fields
        (progress.now.row * line_bytes config.now.system) intake.old intake.new outlet.old outlet.new result }
{
    match fill_line(config, progress, intake)? {
        Filled::Ended(0) => end::<K, W>(outlet, progress.fields, 0, intake.looked()),
        Filled::Ended(_) | Filled::Full => Err(RunFault::TooManyFields),
    }
}

/// Writes the text of a stream, with room for the rows that are kept: three lines if the kind of text has recovered
/// words, else none.
fn run<K: Kind, R: Read, W: Write>(
    config: &Config,
    intake: &mut Intake<R>,
    outlet: &mut Outlet<W>,
    held: &mut [u8],
) -> Result<Summary, RunFault>
    requires room { IsTrue K.KEEPS → length held.old ≡ 3 * line_bytes config.now.system }
    requires no_more { IsTrue K.KEEPS ⊎ (length held.old ≡ 0) }
    requires intake { IsFresh intake.old config.now.system }
    requires outlet { outlets.IsFresh outlet.old }
    ensures same { AreSameDevices intake.old intake.new outlet.old outlet.new }
    ensures run { Runs K.kind config.now (over R.remaining intake.old intake.new)
        (over W.contents outlet.old outlet.new) result }
{
    put(outlet, K::head(config).as_str())?;
    let mut progress = Progress::default();
    // Rows of the whole stream; `progress` counts those of a field.
    for row in 0..config.row_limit() {
        match fill_line(config, &progress, intake)? {
            Filled::Full => {
                keep_row::<K, R>(config, &progress, intake, held);
                let reading = intake.take_reading(config.levels(), progress.is_selected());
                progress.add_row::<K, W>(config, reading, held, outlet)?;
            }
            Filled::Ended(bytes) => {
                let rest = progress.rest(config, bytes);
                return end::<K, W>(outlet, progress.fields, rest, intake.looked());
            }
        }
    }
    end_at_limit::<K, R, W>(config, &progress, intake, outlet)
}

/// Writes the document of the stream that the intake reads: the head before the first read, the record of each field as
/// soon as it is whole, and the tail at the end. The bytes fetched, the text and the answer belong together as
/// `Extracts` says; if the reader tells its bytes, those fetched are the first of them, and after Ok all of them. It
/// doesn't flush.
pub fn extract<R: Read, W: Write>(
    config: &Config,
    intake: &mut Intake<R>,
    outlet: &mut Outlet<W>,
) -> Result<Summary, RunFault>
    requires intake { IsFresh intake.old config.now.system }
    requires outlet { outlets.IsFresh outlet.old }
    ensures same { AreSameDevices intake.old intake.new outlet.old outlet.new }
    ensures run { Runs document config.now (over R.remaining intake.old intake.new)
        (over W.contents outlet.old outlet.new) result }
{
    run::<Document, R, W>(config, intake, outlet, &mut [])
}

/// As `extract`, with recovered words: the clauses are the same with this document's texts. Of each field the bytes of
/// rows 15, 16 and 17 are held until it is whole: three lines beside the one that is read (`room` of `run`). How often
/// recovery looks at their samples isn't counted: the summary counts the looks of the readings.
pub fn extract_recovered<R: Read, W: Write>(
    config: &Config,
    intake: &mut Intake<R>,
    outlet: &mut Outlet<W>,
) -> Result<Summary, RunFault>
    requires intake { IsFresh intake.old config.now.system }
    requires outlet { outlets.IsFresh outlet.old }
    ensures same { AreSameDevices intake.old intake.new outlet.old outlet.new }
    ensures run { Runs recovered_document config.now (over R.remaining intake.old intake.new)
        (over W.contents outlet.old outlet.new) result }
{
    let mut held = [0; HELD_SIZE];
    run::<RecoveredDocument, R, W>(config, intake, outlet, &mut held[..3 * config.line_bytes()])
}

/// Writes the report of the stream that the intake reads: the first line before the first read, the four lines of each
/// field as soon as it is whole, and the last line at the end. The clauses are those of `extract` with the report's
/// texts.
pub fn show<R: Read, W: Write>(
    config: &Config,
    intake: &mut Intake<R>,
    outlet: &mut Outlet<W>,
) -> Result<Summary, RunFault>
    requires intake { IsFresh intake.old config.now.system }
    requires outlet { outlets.IsFresh outlet.old }
    ensures same { AreSameDevices intake.old intake.new outlet.old outlet.new }
    ensures run { Runs report config.now (over R.remaining intake.old intake.new)
        (over W.contents outlet.old outlet.new) result }
{
    run::<Report, R, W>(config, intake, outlet, &mut [])
}

/// As `show`, with recovered words, by what `extract_recovered` holds.
pub fn show_recovered<R: Read, W: Write>(
    config: &Config,
    intake: &mut Intake<R>,
    outlet: &mut Outlet<W>,
) -> Result<Summary, RunFault>
    requires intake { IsFresh intake.old config.now.system }
    requires outlet { outlets.IsFresh outlet.old }
    ensures same { AreSameDevices intake.old intake.new outlet.old outlet.new }
    ensures run { Runs recovered_report config.now (over R.remaining intake.old intake.new)
        (over W.contents outlet.old outlet.new) result }
{
    let mut held = [0; HELD_SIZE];
    run::<RecoveredReport, R, W>(config, intake, outlet, &mut held[..3 * config.line_bytes()])
}
