//! A job: settings from metadata and options, and then the command.

ghost use Rattle.std.specs.Prelude.{◌≡◌, ◌≢◌, IfOk, IfErr, Err, true, false, option_map};
ghost use Rattle.vbi_line.specs.Counted.{IsSameDevice};
ghost use Rattle.vbi_line.specs.Intake as lines;
ghost use Rattle.vbi_field.specs.Outlet as outlets;
ghost use Rattle.vbi_field.specs.{Extracts.AreSameDevices, Ran.over};
ghost use Rattle.vbi_field.specs.RowIntake as row_intakes;
ghost use Rattle.vbi_meta.specs.DocumentValue.{IsConfig};
ghost use Rattle.vbi_cli.specs.Jobs.{Settles, Refuses, Under, Counting, Did, IfMeta, UnlessMeta, IsEndedBy};
ghost use Rattle.vbi_cli.specs.Jobs.{IsAnsweredBy, IsDrawnBy, Does, source_of, app_status};
ghost use Rattle.vbi_cli.specs.Jobs as sources;
ghost use Rattle.vbi_cli.specs.declared.source.Source.TheVariants as source;

use crate::command_line::Job;
use crate::fault::AppFault;
use crate::one_line::{LineFault, run_line};
use crate::source::Source;
use std::alloc::Global;
use std::io::{Read, Write};
use vbi_field::{
    Config, DrawFault, Outlet, RowIntake, RunFault, Summary, draw, extract, extract_recovered,
    show, show_recovered,
};
use vbi_line::Intake;
use vbi_meta::{MetaFault, read_meta, settings};
use vbi_words::{Outcome, System};

/// How a job ended that is done.
#[derive(Clone, Copy, Debug, PartialEq, Eq)]
pub enum Ended {
    /// The input was whole.
    Whole,
    /// The last field of the input was cut.
    CutField,
}

/// The status that the program ends with.
pub fn status(ended: &Result<Ended, AppFault>) -> u8
    ensures { result ≡ app_status ended.now }
{
    match ended {
        Ok(Ended::Whole) => 0,
        Ok(Ended::CutField) => 3,
        Err(_) => 1,
    }
}

/// Settles the settings from metadata and the job's options, and then does what the job says: what the program does
/// between opening its files and flushing its output. The paths in the job aren't looked at. Memory is taken for the
/// metadata document alone. It doesn't flush.
pub fn run_job<R: Read, W: Write>(
    alloc: Global,
    job: &Job,
    meta: Option<&[u8]>,
    input: &mut R,
    output: &mut W,
) -> Result<Ended, AppFault>
    // Nothing was read or written then.
    ensures refused { IfMeta result (λ fault. Refuses (option_map (λ b. b.now) meta.entry) job.now.overrides fault
        × (input.new ≡ input.old) × (output.new ≡ output.old)) }

    // Every other answer is the command's own.
    ensures did { UnlessMeta result (Under (option_map (λ b. b.now) meta.entry) job.now.overrides (λ c.
        Counting (λ n. Did c (R.remaining input.old) (R.remaining input.new)
        (W.contents output.old) (W.contents output.new) n job.now.verb job.now.recover result))) }
{
    let config = settle(alloc, job, meta).map_err(AppFault::Meta)?;
    let mut source = Source::new(job.verb, job.recover, config.system(), input);
    let mut outlet = Outlet::new(output);
    let answer = do_command(&config, &mut source, &mut outlet);
    // Handed back, so that it is known what the two devices are now.
    let _ = source.into_reader();
    let _ = outlet.into_writer();
    answer
}

/// What metadata and the job's options settle.
fn settle(alloc: Global, job: &Job, meta: Option<&[u8]>) -> Result<Config, MetaFault>
    ensures ok { IfOk result (Settles (option_map (λ b. b.now) meta.entry) job.now.overrides) }
    ensures err { IfErr result (Refuses (option_map (λ b. b.now) meta.entry) job.now.overrides) }
{
    match meta {
        None => settings(None, &job.overrides),
        Some(bytes) => {
            let value = read_meta(alloc, bytes)?;
            settings(Some(&value), &job.overrides)
        }
    }
}

/// Does the command of a source. What it fetched and wrote, its answer, and what source and outlet have counted of the
/// two devices belong together as `Did` says. It doesn't flush.
fn do_command<R: Read, W: Write>(
    config: &Config,
    source: &mut Source<R>,
    outlet: &mut Outlet<W>,
) -> Result<Ended, AppFault>
    requires source { sources.IsFresh source.old config.now.system }
    requires outlet { outlets.IsFresh outlet.old }
    ensures same_reader { IsSameDevice (sources.counted_of source.old) (sources.counted_of source.new) }
    ensures same_writer { IsSameDevice (outlets.counted_of outlet.old) (outlets.counted_of outlet.new) }
    ensures did { Does config.now (over R.remaining source.old source.new)
        (over W.contents outlet.old outlet.new) result }
{
    match source {
        Source::Line(intake) => line_job(config, intake, outlet),
        Source::Extract {
            intake,
            recover: false,
        } => text_job(config, Text::Document, intake, outlet),
        Source::Extract {
            intake,
            recover: true,
        } => text_job(config, Text::RecoveredDocument, intake, outlet),
        Source::Show {
            intake,
            recover: false,
        } => text_job(config, Text::Report, intake, outlet),
        Source::Show {
            intake,
            recover: true,
        } => text_job(config, Text::RecoveredReport, intake, outlet),
        Source::Draw(rows) => draw_job(config, rows, outlet),
    }
}

/// The command `line`.
fn line_job<R: Read, W: Write>(
    config: &Config,
    intake: &mut Intake<R>,
    outlet: &mut Outlet<W>,
) -> Result<Ended, AppFault>
    requires intake { lines.IsFresh intake.old config.now.system }
    requires outlet { outlets.IsFresh outlet.old }
    ensures same { AreSameDevices intake.old intake.new outlet.old outlet.new }
    ensures did { Does config.now (over R.remaining (source.Line intake.old) (source.Line intake.new))
        (over W.contents outlet.old outlet.new) result }
{
    let outcome = run_line(config, intake, outlet);
    line_end(config.system(), outcome)
}

/// The job's answer to a run over one line.
fn line_end(system: System, outcome: Result<Outcome, LineFault>) -> Result<Ended, AppFault>
    ensures { IsAnsweredBy system outcome result }
{
    match outcome {
        Ok(_) => Ok(Ended::Whole),
        Err(LineFault::Short { bytes }) => Err(AppFault::Short {
            bytes,
            wanted: system.line_bytes() as u16,
        }),
        Err(LineFault::Read { offset }) => Err(AppFault::ReadLine { offset }),
        Err(LineFault::Write { written }) => Err(AppFault::Write { written }),
    }
}

/// A text of a stream.
#[derive(Clone, Copy)]
enum Text {
    /// What `extract` writes.
    Document,
    /// What `extract --recover` writes.
    RecoveredDocument,
    /// What `show` writes.
    Report,
    /// What `show --recover` writes.
    RecoveredReport,
}

/// The commands `extract` and `show`, by their text. The document without recovered words is also known to be read back
/// as the words that the lines show.
fn text_job<R: Read, W: Write>(
    config: &Config,
    text: Text,
    intake: &mut Intake<R>,
    outlet: &mut Outlet<W>,
) -> Result<Ended, AppFault>
    requires intake { lines.IsFresh intake.old config.now.system }
    requires outlet { outlets.IsFresh outlet.old }
    ensures same { AreSameDevices intake.old intake.new outlet.old outlet.new }
    ensures did { Does config.now (over R.remaining (source_of text intake.old) (source_of text intake.new))
        (over W.contents outlet.old outlet.new) result }
{
    match text {
        Text::Document => {
            numbers(config);
            end_of(extract(config, intake, outlet))
        }
        Text::RecoveredDocument => {
            numbers(config);
            end_of(extract_recovered(config, intake, outlet))
        }
        Text::Report => end_of(show(config, intake, outlet)),
        Text::RecoveredReport => end_of(show_recovered(config, intake, outlet)),
    }
}

/// What is known of a config's numbers: black and white have 16 bits, and the fields a greatest count. Their types say
/// so, but a proof knows what a type says only of a value that the code has read. That is what the two reads are for,
/// and nothing else: by `IsConfig` the laws `extracted_words` and `extracted_recovered` of `vbi_meta` apply.
fn numbers(config: &Config)
    ensures { IsConfig config.now }
{
    let _levels = config.levels();
    let _max_fields = config.max_fields();
}

/// The job's answer to a run over a stream.
fn end_of(summary: Result<Summary, RunFault>) -> Result<Ended, AppFault>
    requires { summary ≢ Err RunFault.Failed }
    ensures { IsEndedBy summary result }
{
    match summary {
        Ok(summary) if summary.cut.is_some() => Ok(Ended::CutField),
        Ok(_) => Ok(Ended::Whole),
        Err(RunFault::Read { field, offset }) => Err(AppFault::ReadField { field, offset }),
        Err(RunFault::Write { written }) => Err(AppFault::Write { written }),
        Err(RunFault::TooManyFields) => Err(AppFault::TooManyFields),
        Err(RunFault::Failed) => unreachable!("a run never answers it"),
    }
}

/// The command `draw`.
fn draw_job<R: Read, W: Write>(
    config: &Config,
    rows: &mut RowIntake<R>,
    outlet: &mut Outlet<W>,
) -> Result<Ended, AppFault>
    requires rows { row_intakes.IsFresh rows.old }
    requires outlet { outlets.IsFresh outlet.old }
    ensures same_reader { IsSameDevice (row_intakes.counted_of rows.old) (row_intakes.counted_of rows.new) }
    ensures same_writer { IsSameDevice (outlets.counted_of outlet.old) (outlets.counted_of outlet.new) }
    ensures did { Does config.now (over R.remaining (source.Draw rows.old) (source.Draw rows.new))
        (over W.contents outlet.old outlet.new) result }
{
    let fields = draw(config, rows, outlet);
    drawing_end(fields)
}

/// The job's answer to a run of drawing.
fn drawing_end(fields: Result<u32, DrawFault>) -> Result<Ended, AppFault>
    ensures { IsDrawnBy fields result }
{
    match fields {
        Ok(_) => Ok(Ended::Whole),
        Err(DrawFault::Row { number }) => Err(AppFault::Row { number }),
        Err(DrawFault::Read { number }) => Err(AppFault::ReadRow { number }),
        Err(DrawFault::Write { written }) => Err(AppFault::Write { written }),
        Err(DrawFault::TooManyFields) => Err(AppFault::TooManyFields),
    }
}
