//! The pace of a disc, found by what is believed.

ghost use Rattle.std.specs.Prelude.{◌≡◌, ℕ, ◌≤◌, length};
ghost use Rattle.vbi_side.specs.PaceSearch.{IsCount, IsMore, IsFound};

use crate::belief::judge_field;
use crate::lines::Counted;
use crate::pace::Pace;
use crate::sighting::Sightings;
use vbi_words::System;

/// How many fields have a believed number at this pace.
fn believed_count(fields: &[Sightings], pace: Pace) -> usize
    ensures value { IsCount pace fields.now (length fields.now) result }
    ensures range { result ≤ length fields.now }
{
    let mut count = 0;
    for field in 0..fields.len() {
        if judge_field(fields, pace, field).is_some() {
            count += 1;
        }
    }
    count
}

/// The pace by which more numbers are believed: that of film if they are over a tenth more than by that of video.
fn more_believed(fields: &[Sightings]) -> Pace
    ensures { IsMore fields.now result }
{
    // Film leaves room for half a picture more, so of a video disc some wrong numbers are believed by it as well. So it
    // takes a tenth more to be film.
    let video = believed_count(fields, Pace::Video);
    let film = believed_count(fields, Pace::Film);
    if 10 * film as u128 > 11 * video as u128 {
        Pace::Film
    } else {
        Pace::Video
    }
}

/// The pace of the disc. Only the pictures of NTSC may be film.
pub fn found_pace(system: System, counted: Counted, fields: &[Sightings]) -> Pace
    ensures { IsFound system counted fields.now result }
{
    match (system, counted) {
        (System::Ntsc, Counted::Pictures) => more_believed(fields),
        _ => Pace::Video,
    }
}
