//! The clock to which a disc's numbers keep. NTSC counts 30 pictures to a second that has 29.97, so its CLV discs leave
//! out numbers: no field is missing there, only the number.

ghost use Rattle.std.specs.Prelude.{◌≡◌, ◌≤◌};
ghost use Rattle.vbi_side.specs.Clocks.{passed, left_out, kept};

/// Which numbers a disc leaves out.
#[derive(Clone, Copy)]
pub enum Clock {
    /// None, or it isn't known which.
    Plain,
    /// At 30 to a second the first two of each minute but each tenth: 0:00:59.29 is followed by 0:01:00.02.
    DropFrame,
    /// One in `period`: those that leave the remainder `phase`.
    OneIn { period: u32, phase: u32 },
}

/// How many numbers below this one leave the remainder.
fn passed(period: u32, remainder: u32, number: u32) -> u64
    ensures { result ≡ passed period remainder number }
{
    let before = u64::from(period.saturating_sub(1).saturating_sub(remainder));
    let period = u64::from(period);
    if period == 0 {
        return 0;
    }
    (u64::from(number) + before) / period
}

impl Clock {
    /// How many numbers below this one it leaves out.
    #[tactic(auto, unfolding(crate::specs::Clocks::left_out))]
    pub fn left_out(self, number: u32) -> u64
        ensures { result ≡ left_out self number }
    {
        match self {
            Clock::Plain => 0,
            Clock::DropFrame => {
                let minutes = passed(1800, 0, number) + passed(1800, 1, number);
                let tenths = passed(18_000, 0, number) + passed(18_000, 1, number);
                minutes.saturating_sub(tenths)
            }
            Clock::OneIn { period, phase } => passed(period, phase, number),
        }
    }

    /// How many numbers below this one the disc has.
    #[tactic(auto, unfolding(crate::specs::Clocks::kept))]
    pub fn kept(self, number: u32) -> u32
        ensures value { result ≡ kept self number }
        ensures most { result ≤ number }
    {
        match self {
            Clock::Plain => number,
            _ => u64::from(number).saturating_sub(self.left_out(number)) as u32,
        }
    }
}
