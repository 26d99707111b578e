//! What the gaps of a capture come to, counted gap by gap.
//!
//! Sums saturate, so that no side is too long for them. Stills that follow each other at one field are one, however
//! many numbers of it were read: each begins where the one before ended.

ghost use Rattle.std.specs.Prelude.{◌≡◌, ◌+◌, ◌<◌, ◌^◌, []};
ghost use Rattle.vbi_whole.specs.Types.{Clock};
ghost use Rattle.vbi_whole.specs.Tallies.{tally_of, with_gap, with_unread, still_end_of, begins_still};

use crate::gap::{BACK, Gap, HELD, INSERTED, JOINED, LOST, OPEN, REPLACED, STILL};
use std::mem::size_of;
use vbi_side::Clock;

/// What the gaps of a capture come to: by default, as of no gap, nothing.
#[derive(Clone, Copy, Default)]
#[repr(C)]
pub struct Tally {
    /// How many gaps there are.
    pub gaps: usize,
    /// The fields that are lost, at least.
    pub lost: u64,
    /// The fields that are too many, at least.
    pub held: u64,
    /// The fields of stills.
    pub stood: u64,
    /// The stills: one counts once, however long it is.
    pub stills: u64,
    /// The field after the last still, counted from 0; 0 if there is none.
    pub still_end: usize,
    /// How often the numbers go back.
    pub back: u64,
    /// How often another side begins.
    pub joined: u64,
    /// How many gaps are open, or replaced.
    pub open_gaps: u64,
    /// The numbers that are lost, at least.
    pub lost_numbers: u64,
    /// The further numbers in gaps with lost fields, and those in open gaps: of these it isn't known.
    pub undecided: u64,
    /// The numbers that weren't read, though their fields are there.
    pub unread: u64,
    /// The fields that detours insert, at least.
    pub inserted: u64,
}

// As include/ldvbi.h has it.
const _: () = prove!(size_of::<Tally>() == 104);

impl Tally {
    /// The field after the last still, with one gap more.
    fn still_end_of(&self, gap: Gap) -> usize
        requires { gap.before < 2 ^ 60 }
        ensures { result ≡ still_end_of self.now.still_end gap }
    {
        if gap.kind == STILL {
            gap.before + 1
        } else {
            self.still_end
        }
    }

    /// One, if a still begins with the gap.
    fn begins_still(&self, gap: Gap) -> u64
        requires { gap.after < 2 ^ 60 }
        ensures { result ≡ begins_still self.now.still_end gap }
    {
        if gap.kind == STILL && self.still_end != gap.after + 1 {
            1
        } else {
            0
        }
    }

    /// The tally with one gap more.
    pub(crate) fn with_gap(self, clock: Clock, gap: Gap) -> Tally
        requires few { self.gaps < 2 ^ 61 }
        requires far { gap.before < 2 ^ 60 }
        requires order { gap.after < gap.before }
        ensures { result ≡ with_gap clock self gap }
    {
        Tally {
            gaps: self.gaps + 1,
            lost: self.lost.saturating_add(gap.fields_if(LOST)),
            held: self.held.saturating_add(gap.fields_if(HELD)),
            stood: self.stood.saturating_add(gap.fields_if(STILL)),
            stills: self.stills.saturating_add(self.begins_still(gap)),
            still_end: self.still_end_of(gap),
            back: self.back.saturating_add(gap.one_if(BACK)),
            joined: self.joined.saturating_add(gap.one_if(JOINED)),
            open_gaps: self
                .open_gaps
                .saturating_add(gap.one_if(OPEN) + gap.one_if(REPLACED)),
            lost_numbers: self.lost_numbers.saturating_add(gap.lost_numbers(clock)),
            undecided: self.undecided.saturating_add(gap.undecided(clock)),
            unread: self.unread,
            inserted: self.inserted.saturating_add(gap.fields_if(INSERTED)),
        }
    }

    /// The tally with this many unread numbers more.
    pub(crate) fn with_unread(self, more: u64) -> Tally
        ensures { result ≡ with_unread self more }
    {
        Tally {
            unread: self.unread.saturating_add(more),
            ..self
        }
    }
}
