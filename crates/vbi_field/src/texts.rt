//! The texts of a stream, of either kind, and how they are written.
ghost use Rattle.std.specs.Prelude.{◌≡◌, ◌+◌, ◌-◌, ◌*◌, ◌^◌, Bool, IsTrue, ◌<◌, ◌≤◌, length, OnOk, OnErr, IfOk, IfErr};
ghost use Rattle.vbi_field.specs.Texts as kinds;
ghost use Rattle.vbi_field.specs.Outlet.{counted_of, written_of, CountedUpTo, Puts, Serves, IsSameDevice};
ghost use Rattle.vbi_field.specs.{ConfigView.most_fields, ConfigView.line_bytes, Extracts.PutsTail, Stream.readings_of};
ghost use Rattle.vbi_field.specs.{Stream.rows_in, Stream.FieldRows, Texts.joined_entry_of};

use crate::config::Config;
use crate::outlet::Outlet;
use crate::readings::FieldReadings;
use crate::summary::{RunFault, Summary};
use arrayvec::ArrayString;
use std::io::Write;
use vbi_words::LONGEST_LINE;

/// The most bytes that one text may have: those of the head, of an entry, or of the tail.
pub(crate) const TEXT_SIZE: usize = 448;

/// A head, an entry or a tail.
pub(crate) type Text = ArrayString<TEXT_SIZE>;

/// Room for the bytes of three of the longest lines.
pub(crate) const HELD_SIZE: usize = 3 * LONGEST_LINE;

/// What is written for a stream: the document or the report, as the lines are read or with recovered words.
pub(crate) trait Kind {
    /// The head, the entries and the tail, as functions of what they are written for.
    ghost kind: { kinds.Kind };

    /// Whether the bytes of rows 15, 16 and 17 are kept until the field is whole.
    const KEEPS: bool;

    ghost KEEPS: { Bool };

    /// The head, which is written before the first read.
    fn head(config: &Config) -> Text
        ensures { result.bytes ≡ kind.head config.now };

    /// The entry of a field after `before` others, with the joint before it if there are any: by its readings and the
    /// bytes of its rows, if these are kept.
    fn entry(config: &Config, before: u32, readings: &FieldReadings, held: &[u8]) -> Text
        requires few { before < 2 ^ 32 - 1 }
        requires held { IsTrue KEEPS → length held.now ≡ 3 * line_bytes config.now.system }
        ensures { (rows : FieldRows) → readings.now ≡ readings_of config.now rows
            → (IsTrue KEEPS → rows_in config.now.system held.now ≡ rows)
            → result.bytes ≡ joined_entry_of kind config.now before rows };

    /// The tail after this number of whole fields and this number of bytes past them.
    fn tail(fields: u32, rest: u32) -> Text
        requires { fields < 2 ^ 32 - 1 }
        ensures { result.bytes ≡ kind.tail fields rest };
}

/// Writes a text.
pub(crate) fn put<W: Write>(outlet: &mut Outlet<W>, text: &str) -> Result<(), RunFault>
    requires counts { CountedUpTo (2 ^ 62) outlet.old }
    requires few { length text.now ≤ 2 ^ 56 }
    ensures serves { Serves outlet.old outlet.new result }
    ensures puts { Puts W.contents outlet.old outlet.new text.now }
    ensures ok { OnOk result (written_of outlet.new ≡ written_of outlet.old + length text.now) }
    ensures short { OnErr result (written_of outlet.new < written_of outlet.old + length text.now) }
    ensures fault { IfErr result (λ e. e ≡ RunFault.Write (written_of outlet.new)) }
{
    match outlet.put_all(text.as_bytes()) {
        Ok(()) => Ok(()),
        Err(_) => Err(RunFault::Write {
            written: outlet.written(),
        }),
    }
}

/// Writes the tail, and answers what the run did.
pub(crate) fn end<K: Kind, W: Write>(
    outlet: &mut Outlet<W>,
    fields: u32,
    rest: u32,
    looked: u64,
) -> Result<Summary, RunFault>
    requires counts { CountedUpTo (2 ^ 62) outlet.old }
    requires fields { fields ≤ most_fields }
    ensures same { IsSameDevice (counted_of outlet.old) (counted_of outlet.new) }
    ensures tail { PutsTail K.kind W.contents outlet.old outlet.new fields rest looked result }
{
    put(outlet, K::tail(fields, rest).as_str())?;
    let cut = if rest == 0 { None } else { Some(rest) };
    Ok(Summary {
        fields,
        cut,
        looked,
    })
}
