//! A reading of a number, and the prices of the steps between two.

ghost use Rattle.std.specs.Prelude.{◌≡◌, ◌<◌, length};
ghost use Rattle.vbi_story.specs.Story.{reading_at};

/// A number that a field shows, as a story takes it: numbers that go on at one pace stand on one row. On video that
/// is field + 2 * big - 2 * number, where big is the greatest number.
#[derive(Clone, Copy)]
pub struct NumberReading {
    /// The field that shows it.
    pub field: u32,
    /// The number that it shows.
    pub number: u32,
    /// The row that it stands on.
    pub row: u32,
    /// How much it weighs, at most 4.
    pub weight: u32,
}

/// How far off a row may be that is near to another: by six fields, or three pictures of video, which a capture loses
/// or a player holds while it plays on. What is further off is another part of the disc.
pub(crate) const NEAR_REACH: usize = 6;

/// The price of a step to a near row. To leave a row for a near one and to come back takes two, more than the 4 that a
/// field weighs at most: so no field alone is told off its row.
pub(crate) const NEAR: u32 = 3;

/// The price of a step to any other row: what five lines of pass 1 weigh. To leave a row for a far one and to come back
/// takes two, so what a scratch makes all of some fields say isn't told before it weighs 20.
pub(crate) const FAR: u32 = 10;

/// Returns the reading at this place.
pub(crate) fn reading_at(readings: &[NumberReading], place: usize) -> NumberReading
    requires { place < length readings.now }
    ensures { result ≡ reading_at readings.now place }
{
    readings[place]
}
