//! Seeking a number, a chapter or the next picture stop in the bytes of a side.

ghost use Rattle.std.specs.Prelude.{◌≡◌};
ghost use Rattle.vbi_seek.specs.declared.number_search.Sought as numbers;
ghost use Rattle.vbi_seek.specs.{ChapterLeads.IsChapterComplete, ChapterSearch.IsChapterSought, FieldLines.side_in};
ghost use Rattle.vbi_seek.specs.{NumberLeads.IsComplete, Neighbours.AreBeside, NumberSearch.IsSought};
ghost use Rattle.vbi_seek.specs.{StopSearch.IsNextStop};
ghost use Rattle.vbi_c.specs.{Seeking.seek_of, Seeking.sought_for_c, Setups.setup_of, Statuses.Answers};

use crate::judging::with_pace;
use crate::numbers::{asked_of, pace_for_c};
use crate::setup::setup_of;
use crate::status::{DONE, Settled, settled};
use vbi_seek::{FoundField, Neighbour, Seek, Sought, next_stop, seek_chapter, seek_number};
use vbi_side::Number;

/// Where a number was found.
#[derive(Clone, Copy)]
#[repr(C)]
pub struct LdvbiSought {
    /// The field, counted from 0; as many as the side has if none was found.
    pub field: usize,
    /// What is answered of this field: the number, believed or due.
    pub number: Number,
    /// The pace at which it is answered, 1 or 2; 0 if none was found.
    pub pace: u32,
    /// How many fields were read.
    pub looked: u32,
    /// The nearest lower number that is believed of the fields in which the number was looked for.
    pub before: Neighbour,
    /// The nearest higher one.
    pub after: Neighbour,
}

/// What these numbers ask for, or why they are refused.
fn seek_of(system: u32, black: u32, white: u32, counted: u32, pace: u32) -> Settled<Seek>
    ensures { result ≡ seek_of system black white counted pace }
{
    let setup = setup_of(system, black, white)?;
    let judging = with_pace(setup.system, counted, asked_of(pace))?;
    Ok(Seek { setup, judging })
}

/// A number that was sought, as C sees it.
fn sought_for_c(sought: Sought) -> LdvbiSought
    ensures { result ≡ sought_for_c sought }
{
    LdvbiSought {
        field: sought.field,
        number: sought.number,
        pace: sought.pace.map_or(0, pace_for_c),
        looked: sought.looked,
        before: sought.before,
        after: sought.after,
    }
}

/// Seeks a number in the bytes of a side: the first of the fields in a row that have it. It is the number that
/// `ldvbi_judge` answers of this field at this pace, by what `ldvbi_recover_fields` reads of the whole side. A last
/// field that is cut is left out. At most 1,000 fields are read, so if the numbers don't rise along the side it may be
/// missed.
#[unsafe(no_mangle)]
pub extern "C" fn ldvbi_seek(
    system: u32,
    black: u32,
    white: u32,
    counted: u32,
    pace: u32,
    bytes: &[u8],
    number: u32,
    sought: &mut LdvbiSought,
) -> u32
    ensures seeks { Answers (seek_of system black white counted pace) result (λ seek. (found : numbers.Sought)
        × IsSought seek bytes.now number found × IsComplete seek bytes.now number found
        × AreBeside seek bytes.now number found × (sought.new ≡ sought_for_c found)) (sought.new ≡ sought.old) }
{
    let seek = settled!(seek_of(system, black, white, counted, pace));
    *sought = sought_for_c(seek_number(seek, bytes, number));
    DONE
}

/// Seeks a chapter in the bytes of a side: a field of which `ldvbi_judge_chapters` believes it, by what
/// `ldvbi_recover_fields` reads of the whole side, and of none of the 72 fields before it. A last field that is cut is
/// left out. At most 1,000 fields are read, so if the chapters don't rise along the side it may be missed.
#[unsafe(no_mangle)]
pub extern "C" fn ldvbi_seek_chapter(
    system: u32,
    black: u32,
    white: u32,
    bytes: &[u8],
    chapter: u32,
    place: &mut FoundField,
) -> u32
    ensures seeks { Answers (setup_of system black white) result
        (λ setup. IsChapterSought (side_in setup bytes.now) chapter place.new
        × IsChapterComplete (side_in setup bytes.now) chapter place.new) (place.new ≡ place.old) }
{
    let setup = settled!(setup_of(system, black, white));
    *place = seek_chapter(setup, bytes, chapter);
    DONE
}

/// Seeks the next picture stop in the bytes of a side: the first field from `field` on of which `ldvbi_judge_stops`
/// believes one, by what `ldvbi_recover_fields` reads of it. No more than `most` fields are read, and none after it. A
/// last field that is cut is left out.
#[unsafe(no_mangle)]
pub extern "C" fn ldvbi_next_stop(
    system: u32,
    black: u32,
    white: u32,
    bytes: &[u8],
    field: usize,
    most: usize,
    stop: &mut FoundField,
) -> u32
    ensures finds { Answers (setup_of system black white) result
        (λ setup. IsNextStop (side_in setup bytes.now) field most stop.new) (stop.new ≡ stop.old) }
{
    let setup = settled!(setup_of(system, black, white));
    *stop = next_stop(setup, bytes, field, most);
    DONE
}
