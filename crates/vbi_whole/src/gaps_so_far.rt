//! What is told of the gaps of a capture, as a pass over its fields finds them.
//!
//! A gap may be one of a detour with the next one (detour.rt). So the last gap waits, neither counted nor written,
//! until the next one is found or the fields end. Of two that are a detour neither waits: none is of two detours.

ghost use Rattle.std.specs.Prelude.{◌≡◌, ℕ, ◌+◌, ◌<◌, ◌≤◌, ◌^◌, length, slice_set, List, [], ◌∷◌, ◌++◌, Some, None};
ghost use Rattle.vbi_whole.specs.Tallies.{AreTold, AreTelling, waiting, listed, stage_of};
ghost use Rattle.vbi_whole.specs.{Types.Clock, Types.Gap, Types.Pace, Types.Rule, Detours.detoured};

use crate::detour::{Waiting, detour, fields_by};
use crate::gap::{Gap, Rule};
use crate::tally::Tally;
use vbi_side::Clock;

/// What is told of the gaps so far.
#[derive(Clone, Copy)]
pub(crate) struct Telling {
    /// The last gap, if a detour may begin with it.
    pub(crate) last: Option<Waiting>,
    /// What those before it come to.
    pub(crate) tally: Tally,
}

/// Writes the gap into its place, if there is room.
fn write(out: &mut [Gap], place: usize, gap: Gap)
    ensures there { place < length out.old → out.new ≡ slice_set out.old place gap }
    ensures full { length out.old ≤ place → out.new ≡ out.old }
{
    if place < out.len() {
        out[place] = gap;
    }
}

impl Tally {
    /// The tally with one gap more, which is written if there is room.
    fn with_written(self, clock: Clock, one: Waiting, out: &mut [Gap]) -> Tally
        requires few { self.gaps < 2 ^ 61 }
        ensures count { result.gaps ≡ self.gaps + 1 }
        ensures told { (gaps : List Gap) (unread : ℕ) (old : List Gap)
            → AreTold clock (listed gaps unread) self old out.old
            → AreTold clock (listed (gaps ++ one.gap ∷ []) unread) result old out.new }
    {
        write(out, self.gaps, one.gap);
        self.with_gap(clock, one.gap)
    }
}

impl Telling {
    /// What is told of no gap.
    pub(crate) fn none() -> Telling
        ensures { (rule : Rule) (old : List Gap)
            → AreTelling rule (listed [] 0) (stage_of result) old old }
    {
        Telling {
            last: None,
            tally: Tally::default(),
        }
    }

    /// What is told with this many unread numbers more.
    pub(crate) fn with_unread(self, more: u64) -> Telling
        ensures { (rule : Rule) (gaps : List Gap) (unread : ℕ) (old new : List Gap)
            → AreTelling rule (listed gaps unread) (stage_of self) old new
            → AreTelling rule (listed gaps (unread + more)) (stage_of result) old new }
    {
        Telling {
            last: self.last,
            tally: self.tally.with_unread(more),
        }
    }

    /// What is told with one gap more.
    pub(crate) fn with_gap(self, rule: Rule, gap: Waiting, out: &mut [Gap]) -> Telling
        requires few { self.tally.gaps < 2 ^ 60 }
        ensures { (gaps : List Gap) (unread : ℕ) (old : List Gap)
            → AreTelling rule (listed gaps unread) (stage_of self) old out.old
            → AreTelling rule (listed (gaps ++ gap.gap ∷ []) unread) (stage_of result) old out.new }
    {
        let Some(first) = self.last else {
            return Telling {
                last: Some(gap),
                tally: self.tally,
            };
        };
        let clock = rule.numbering.clock;
        match detour(rule, first, gap) {
            None => Telling {
                last: Some(gap),
                tally: self.tally.with_written(clock, first, out),
            },
            Some(kind) => {
                let fields = fields_by(rule, kind, first, gap);
                let tally = self
                    .tally
                    .with_written(clock, first.turned(kind, fields), out);
                Telling {
                    last: None,
                    tally: tally.with_written(clock, gap.turned(kind, 0), out),
                }
            }
        }
    }

    /// What all gaps come to, after the last one.
    pub(crate) fn ended(self, rule: Rule, out: &mut [Gap]) -> Tally
        requires few { self.tally.gaps < 2 ^ 61 }
        ensures { (gaps : List Gap) (unread : ℕ) (old : List Gap)
            → AreTelling rule (listed gaps unread) (stage_of self) old out.old
            → AreTold rule.numbering.clock (listed (detoured rule gaps) unread) result old out.new }
    {
        match self.last {
            None => self.tally,
            Some(last) => self.tally.with_written(rule.numbering.clock, last, out),
        }
    }
}
