//! Judging the chapters, the picture stops, and the lead-in and lead-out of fields.

ghost use Rattle.std.specs.Prelude.{◌≡◌, ◌==◌, length, map};
ghost use Rattle.vbi_c.specs.FieldCodes.{chapters_in, AreJudgedChapters, IsStopOf, IsEndOf, AreAnswered};
ghost use Rattle.vbi_c.specs.{Judging.are_as_long, Statuses.fitting, Statuses.Answers};

use crate::judging::{are_as_long, shown_by};
use crate::reading::LdvbiFieldReadings;
use crate::status::{DONE, Refusal, refuse_unless, settled};
use vbi_side::{Number, Sightings, chapters_shown, judge_chapters, judge_end, judge_stop};

/// What a field's lines show of its chapter.
pub(crate) fn chapters_in(readings: &LdvbiFieldReadings) -> Sightings
    ensures { result ≡ chapters_in readings.now }
{
    let [_, line_17, line_18] = &readings.lines;
    chapters_shown(&shown_by(line_17), &shown_by(line_18))
}

/// Puts what each field shows of its chapter into its place.
fn sight_chapters(readings: &[LdvbiFieldReadings], seen: &mut [Sightings])
    requires { length seen.old ≡ length readings.now }
    ensures { seen.new ≡ map chapters_in readings.now }
{
    for i in 0..readings.len() {
        seen[i] = chapters_in(&readings[i]);
    }
}

/// Judges which chapter each field has, by the fields around it: what is read of each goes to `seen`, what is answered
/// to `chapters`, both as long as `readings`.
#[unsafe(no_mangle)]
pub extern "C" fn ldvbi_judge_chapters(
    readings: &[LdvbiFieldReadings],
    seen: &mut [Sightings],
    chapters: &mut [Number],
) -> u32
    ensures judges { Answers (fitting (are_as_long (length readings.now) (length seen.old) (length chapters.old)))
        result (λ fits. (seen.new ≡ map chapters_in readings.now) × AreJudgedChapters seen.new chapters.new)
        ((seen.new ≡ seen.old) × (chapters.new ≡ chapters.old)) }
{
    let fit = are_as_long(readings.len(), seen.len(), chapters.len());
    settled!(refuse_unless(fit, Refusal::Length));
    sight_chapters(readings, seen);
    judge_chapters(seen, chapters);
    DONE
}

/// Whether a field's lines 16 and 17 show a stop that is to be believed.
fn stop_in(readings: &LdvbiFieldReadings) -> u32
    ensures { IsStopOf readings.now.lines result }
{
    let [line_16, line_17, _] = &readings.lines;
    judge_stop(&shown_by(line_16), &shown_by(line_17))
}

/// Puts what each field is answered into its place.
fn judge_all_stops(readings: &[LdvbiFieldReadings], stops: &mut [u32])
    requires { length stops.old ≡ length readings.now }
    ensures { AreAnswered IsStopOf readings.now stops.new }
{
    for i in 0..readings.len() {
        stops[i] = stop_in(&readings[i]);
    }
}

/// Judges which fields have a picture stop, each by its own lines 16 and 17. What is answered goes to `stops`, which is
/// as long as `readings`: 1 for a stop that is believed, 2 for one in doubt, 0 for none.
#[unsafe(no_mangle)]
pub extern "C" fn ldvbi_judge_stops(readings: &[LdvbiFieldReadings], stops: &mut [u32]) -> u32
    ensures judges { Answers (fitting (length stops.old == length readings.now)) result
        (λ fits. AreAnswered IsStopOf readings.now stops.new) (stops.new ≡ stops.old) }
{
    settled!(refuse_unless(stops.len() == readings.len(), Refusal::Length));
    judge_all_stops(readings, stops);
    DONE
}

/// Whether a field's lines 17 and 18 show lead-in or lead-out that is to be believed.
fn end_in(readings: &LdvbiFieldReadings) -> u32
    ensures { IsEndOf readings.now.lines result }
{
    let [_, line_17, line_18] = &readings.lines;
    judge_end(&shown_by(line_17), &shown_by(line_18))
}

/// Puts what each field is answered of its end into its place.
fn judge_all_ends(readings: &[LdvbiFieldReadings], ends: &mut [u32])
    requires { length ends.old ≡ length readings.now }
    ensures { AreAnswered IsEndOf readings.now ends.new }
{
    for i in 0..readings.len() {
        ends[i] = end_in(&readings[i]);
    }
}

/// Judges which fields are of a lead-in or a lead-out, each by its own lines 17 and 18. What is answered goes to
/// `ends`, which is as long as `readings`: 1 for lead-out, 3 for lead-in, 2 for either in doubt, 0 for none.
#[unsafe(no_mangle)]
pub extern "C" fn ldvbi_judge_ends(readings: &[LdvbiFieldReadings], ends: &mut [u32]) -> u32
    ensures judges { Answers (fitting (length ends.old == length readings.now)) result
        (λ fits. AreAnswered IsEndOf readings.now ends.new) (ends.new ≡ ends.old) }
{
    settled!(refuse_unless(ends.len() == readings.len(), Refusal::Length));
    judge_all_ends(readings, ends);
    DONE
}
