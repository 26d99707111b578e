//! What a command reads from, before its first read.

ghost use Rattle.std.specs.Prelude.{◌≡◌};
ghost use Rattle.vbi_line.specs.Counted.{device_of, name_of};
ghost use Rattle.vbi_cli.specs.Jobs.{counted_of, verb_of, recover_of, recovers, IsFresh};

use crate::command_line::Verb;
use std::io::Read;
use vbi_field::RowIntake;
use vbi_line::Intake;
use vbi_words::System;

/// A command with what it reads from: a borrowed reader, whose bytes and failures are counted. The command `draw` reads
/// rows of words, and each other one lines of samples.
#[derive(Drop)]
pub(crate) enum Source<'a, R> {
    /// `line`, with the line's samples.
    Line(Intake<'a, R>),
    /// `extract`.
    Extract {
        /// A stream's lines.
        intake: Intake<'a, R>,
        /// With recovered words.
        recover: bool,
    },
    /// `show`.
    Show {
        /// A stream's lines.
        intake: Intake<'a, R>,
        /// With recovered words.
        recover: bool,
    },
    /// `draw`, with its rows.
    Draw(RowIntake<'a, R>),
}

impl<'a, R: Read> Source<'a, R> {
    /// The source of a command on lines of this system, which recovers words if it can and is asked to. It has not
    /// called the reader.
    pub(crate) fn new(verb: Verb, recover: bool, system: System, reader: &'a mut R) -> Self
        ensures same { name_of (counted_of result) ≡ reader.entry.ghost_name }
        ensures reader { device_of (counted_of result) ≡ reader.old }
        ensures verb { verb_of result ≡ verb }
        ensures recover { recover_of result ≡ recovers verb recover }
        ensures fresh { IsFresh result system }
    {
        match verb {
            Verb::Line => Source::Line(Intake::new(reader, system)),
            Verb::Extract => Source::Extract {
                intake: Intake::new(reader, system),
                recover,
            },
            Verb::Show => Source::Show {
                intake: Intake::new(reader, system),
                recover,
            },
            Verb::Draw => Source::Draw(RowIntake::new(reader)),
        }
    }

    /// Gives the borrowed reader back, as the calls have left it.
    pub(crate) fn into_reader(self) -> &'a mut R
        ensures same { result.ghost_name ≡ name_of (counted_of self.entry) }
        ensures reader { result.now ≡ device_of (counted_of self.entry) }
    {
        match self {
            Source::Line(intake) | Source::Extract { intake, .. } | Source::Show { intake, .. } =>
                intake.into_reader(),
            Source::Draw(rows) => rows.into_reader(),
        }
    }
}
