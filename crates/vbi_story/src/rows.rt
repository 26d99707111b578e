//! On which rows a number in a field stands.
//!
//! Numbers that go on at one pace have to stand on one row, whatever the pace: so a number stands on a row for each way
//! in which it may be played, and the story says by which of these it is told. Of `Video` and film, and where a number
//! is shown for three pictures, rows count fields up from where the greatest number would be; at another speed fields
//! are counted down from the last, or up where the numbers fall. A step to a near row is then a few fields lost or
//! held. Video within film is `Video`. A time is counted in the pictures that its clock has.

ghost use Rattle.std.specs.Prelude.{◌≡◌, ◌≤◌, ◌^◌};
ghost use Rattle.vbi_story.specs.Rows.{row_of};

/// A way of playing, by which numbers go on.
#[derive(Clone, Copy)]
pub enum Playing {
    /// A picture lasts two fields, and its first one shows the number.
    Video,
    /// A picture lasts two fields, and its second one shows the number too.
    SecondField,
    /// Film, whose pictures last two and three fields by turns: two and a half, and an odd number begins a half early.
    FilmEarly,
    /// Film, of which an odd number begins a half late.
    FilmLate,
    /// A number lasts three pictures, of which this is the first.
    ThirdBegin,
    /// A number lasts three pictures, of which this is the second.
    ThirdMiddle,
    /// A number lasts three pictures, of which this is the third.
    ThirdEnd,
    /// Each picture shows the number after the next.
    Twice,
    /// Each picture shows the third number from it on.
    Thrice,
    /// Each picture shows the number before.
    Back,
    /// Numbers fall by two a picture.
    BackTwice,
    /// Numbers fall by three a picture.
    BackThrice,
    /// The number stays.
    Still,
}

impl Playing {
    /// Returns the row of a number in a field, if no field is later than the last and no number greater than the
    /// greatest. Rows of one way of playing have to be kept apart from those of another; those of the two fields of a
    /// picture, and those of a number's three pictures, are the same.
    pub fn row(self, last_field: u32, greatest: u32, field: u32, number: u32) -> u32
        requires in_side { field ≤ last_field }
        requires in_numbers { number ≤ greatest }
        requires side { last_field ≤ 2 ^ 28 }
        requires numbers { greatest ≤ 2 ^ 28 }
        ensures { result ≡ row_of self last_field greatest field number }
    {
        let to_come = greatest - number;
        let fields_to_come = last_field - field;
        match self {
            Playing::Video => field + 2 * to_come + 1,
            Playing::SecondField => field + 2 * to_come,
            Playing::FilmEarly => field + (3 * greatest - 5 * number / 2),
            Playing::FilmLate => field + (3 * greatest - (5 * number + 1) / 2),
            Playing::ThirdBegin => field + 6 * to_come + 4,
            Playing::ThirdMiddle => field + 6 * to_come + 2,
            Playing::ThirdEnd => field + 6 * to_come,
            Playing::Twice => 2 * fields_to_come + 2 * number + field % 2,
            Playing::Thrice => 3 * fields_to_come + 2 * number,
            Playing::Back => field + 2 * number,
            Playing::BackTwice => 2 * field + 2 * number + field % 2,
            Playing::BackThrice => 3 * field + 2 * number,
            Playing::Still => 2 * number + field % 2,
        }
    }
}
