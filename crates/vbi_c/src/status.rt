//! How a call ends.

ghost use Rattle.std.specs.Prelude.{◌≡◌, if◌then◌else◌, Ok, Err};
ghost use Rattle.vbi_c.specs.Statuses.{refusal_status};

/// The call did what its name says.
pub const DONE: u32 = 0;

/// Why a call is refused, with the status that C is answered. What comes first here is tested first, but lists are
/// tested last.
#[derive(Clone, Copy)]
pub(crate) enum Refusal {
    /// There is no system of that number.
    System = 1,
    /// Black is not below white, or one of the two has more than 16 bits.
    Levels = 2,
    /// Too few or too many bytes, or items of an array.
    Length = 3,
    /// A number that is no code word.
    Word = 4,
    /// Nothing of that number is counted.
    Counted = 5,
    /// There is no pace of that number.
    Pace = 6,
    /// A list of erased columns that isn't sorted, or an entry of it that is none.
    Erased = 7,
    /// No line of that number has code words.
    Line = 8,
    /// Nothing says whether dropouts are known.
    Known = 9,
    /// There is no clock of that kind, or of that phase.
    Clock = 10,
}

impl Refusal {
    /// The status that C is answered.
    pub(crate) fn status(self) -> u32
        ensures { result ≡ refusal_status self }
    {
        self as u32
    }
}

/// What the arguments of a call stand for, or why it is refused.
pub(crate) type Settled<T> = Result<T, Refusal>;

/// Refuses a call unless this holds.
pub(crate) fn refuse_unless(holds: bool, refusal: Refusal) -> Settled<()>
    ensures { result ≡ if holds then Ok tt else Err refusal }
{
    if holds { Ok(()) } else { Err(refusal) }
}

/// What the arguments of a call stand for. If they are refused, the call ends here, with the status.
macro_rules! settled {
    ($asked:expr) => {
        match $asked {
            Ok(found) => found,
            Err(refusal) => return refusal.status(),
        }
    };
}

pub(crate) use settled;
