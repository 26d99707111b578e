//! Judging the numbers of fields, of one field by those around it, and the pace of a capture.

ghost use Rattle.std.specs.Prelude.{◌≡◌, ◌<◌, ◌≤◌, ◌==◌, length, map, Some, None, Ok};
ghost use Rattle.vbi_side.specs.declared.pace.Pace as paces;
ghost use Rattle.vbi_side.specs.{Numbers.IsFirst, Parts.part_most};
ghost use Rattle.vbi_c.specs.Judging.{judging_of, shown_by, seen_in, AreJudged, are_as_long, with_lengths, with_pace};
ghost use Rattle.vbi_c.specs.Judging.{IsAskedPace, one_judging_of, IsJudgedField};
ghost use Rattle.vbi_c.specs.{Numbers.system_of, Numbers.counted_of, Numbers.pace_for_c, Statuses.Answers};

use crate::numbers::{asked_of, counted_of, pace_for_c, pace_given, system_of};
use crate::reading::{LdvbiFieldReadings, LdvbiReading};
use crate::status::{DONE, Refusal, Settled, refuse_unless, settled};
pub(crate) use vbi_seek::{Asked, Judging, pace_for};
use vbi_side::{Number, PART, Shown, Sightings, first_of, judge, judge_one, sightings};
use vbi_words::{System, Word24};

/// The number by which C asks for a pace that is to be found.
const FIND: u32 = 3;

/// Whether both other arrays of a call are as long as its first.
pub(crate) fn are_as_long(count: usize, first: usize, second: usize) -> bool
    ensures { result ≡ are_as_long count first second }
{
    first == count && second == count
}

/// The system of a number, if the lengths of the arrays fit, or why the call is refused.
pub(crate) fn with_lengths(system: u32, fit: bool) -> Settled<System>
    ensures { result ≡ with_lengths (system_of system) fit }
{
    let system = system_of(system).ok_or(Refusal::System)?;
    refuse_unless(fit, Refusal::Length)?;
    Ok(system)
}

/// What is to be judged of a system, by the number of what is counted and the pace, or why the call is refused.
pub(crate) fn with_pace(system: System, counted: u32, asked: Option<Asked>) -> Settled<Judging>
    ensures { result ≡ with_pace (Ok system) (counted_of counted) asked }
{
    let counted = counted_of(counted).ok_or(Refusal::Counted)?;
    let asked = asked.ok_or(Refusal::Pace)?;
    Ok(Judging {
        system,
        counted,
        asked,
    })
}

/// What these numbers ask for, if the lengths of the arrays fit, or why they are refused.
fn judging_of(system: u32, counted: u32, pace: u32, fit: bool) -> Settled<Judging>
    ensures { result ≡ judging_of system counted pace fit }
{
    with_pace(with_lengths(system, fit)?, counted, asked_of(pace))
}

/// What a line shows by its reading, of which C may have made anything.
pub(crate) fn shown_by(reading: &LdvbiReading) -> Shown
    ensures { result ≡ shown_by reading.now }
{
    Shown {
        word: Word24::new(reading.word).ok(),
        pass: reading.pass,
    }
}

/// What a field's lines show of its number.
pub(crate) fn seen_in(judging: &Judging, readings: &LdvbiFieldReadings) -> Sightings
    ensures { result ≡ seen_in judging.now readings.now }
{
    let [line_16, line_17, line_18] = &readings.lines;
    let lines = [shown_by(line_16), shown_by(line_17), shown_by(line_18)];
    sightings(judging.system, judging.counted, &lines)
}

/// Puts what each field shows of its number into its place.
pub(crate) fn see_all(judging: &Judging, readings: &[LdvbiFieldReadings], seen: &mut [Sightings])
    requires { length seen.old ≡ length readings.now }
    ensures { seen.new ≡ map (seen_in judging.now) readings.now }
{
    for i in 0..readings.len() {
        seen[i] = seen_in(judging, &readings[i]);
    }
}

/// Judges which number of its disc each field shows, by the fields around it: what is read of each goes to `seen`, what
/// is answered to `numbers`, both as long as `readings`.
#[unsafe(no_mangle)]
pub extern "C" fn ldvbi_judge(
    system: u32,
    counted: u32,
    pace: u32,
    readings: &[LdvbiFieldReadings],
    seen: &mut [Sightings],
    numbers: &mut [Number],
) -> u32
    ensures judges { Answers (judging_of system counted pace
        (are_as_long (length readings.now) (length seen.old) (length numbers.old))) result
        (λ judging. (seen.new ≡ map (seen_in judging) readings.now)
        × (pace : paces.Pace) × AreJudged judging readings.now seen.new numbers.new pace)
        ((seen.new ≡ seen.old) × (numbers.new ≡ numbers.old)) }
{
    let fit = are_as_long(readings.len(), seen.len(), numbers.len());
    let judging = settled!(judging_of(system, counted, pace, fit));
    see_all(&judging, readings, seen);
    judge(seen, pace_for(&judging, seen), numbers);
    DONE
}

/// The first of these numbers, counted from 0, that is believed or due and is this one; as many as there are if none
/// is.
#[unsafe(no_mangle)]
pub extern "C" fn ldvbi_first_of(numbers: &[Number], number: u32) -> usize
    ensures found { result < length numbers.now → IsFirst numbers.now number (Some result) }
    ensures none { length numbers.now ≤ result
        → (result ≡ length numbers.now) × IsFirst numbers.now number None }
{
    first_of(numbers, number).unwrap_or(numbers.len())
}

/// The pace that `ldvbi_judge` takes if it is to find one, 1 or 2. What is read of each field goes to `seen`, which
/// is as long as `readings`.
#[unsafe(no_mangle)]
pub extern "C" fn ldvbi_find_pace(
    system: u32,
    counted: u32,
    readings: &[LdvbiFieldReadings],
    seen: &mut [Sightings],
    pace: &mut u32,
) -> u32
    ensures finds { Answers (judging_of system counted 3 (length seen.old == length readings.now)) result
        (λ judging. (seen.new ≡ map (seen_in judging) readings.now)
        × (found : paces.Pace) × IsAskedPace judging seen.new found × (pace.new ≡ pace_for_c found))
        ((seen.new ≡ seen.old) × (pace.new ≡ pace.old)) }
{
    let judging = settled!(judging_of(system, counted, FIND, seen.len() == readings.len()));
    see_all(&judging, readings, seen);
    *pace = pace_for_c(pace_for(&judging, seen));
    DONE
}

/// What these numbers ask for of one field, or why they are refused.
fn one_judging_of(
    system: u32,
    counted: u32,
    pace: u32,
    count: usize,
    field: usize,
) -> Settled<Judging>
    ensures { result ≡ one_judging_of system counted pace count field }
{
    let system = with_lengths(system, count <= PART && field < count)?;
    // A few fields have no pace of their own, so it has to be given.
    with_pace(system, counted, pace_given(pace).map(Asked::Given))
}

/// The answer for one of at most 97 fields.
fn answer_of(judging: &Judging, readings: &[LdvbiFieldReadings], field: usize) -> Number
    requires few { length readings.now ≤ part_most }
    requires inside { field < length readings.now }
    ensures { (pace : paces.Pace) × IsJudgedField judging.now readings.now field result pace }
{
    // What each field shows is put over this.
    let mut all_seen = [seen_in(judging, &readings[field]); PART];
    let seen = &mut all_seen[..readings.len()];
    see_all(judging, readings, seen);
    judge_one(seen, pace_for(judging, seen), field)
}

/// Judges which number of its disc one field shows, counted from 0, by the readings of at most 97 that follow each
/// other. What is answered is what `ldvbi_judge` answers of it, of these fields at this pace, and also of a whole
/// capture of which they are a part: if they have 48 fields before this one, or all that the capture has, and so
/// after it. The pace is 1 or 2: a few fields have none of their own.
#[unsafe(no_mangle)]
pub extern "C" fn ldvbi_judge_field(
    system: u32,
    counted: u32,
    pace: u32,
    readings: &[LdvbiFieldReadings],
    field: usize,
    number: &mut Number,
) -> u32
    ensures judges { Answers (one_judging_of system counted pace (length readings.now) field) result
        (λ judging. (given : paces.Pace) × IsJudgedField judging readings.now field number.new given)
        (number.new ≡ number.old) }
{
    let judging = settled!(one_judging_of(system, counted, pace, readings.len(), field));
    *number = answer_of(&judging, readings, field);
    DONE
}
