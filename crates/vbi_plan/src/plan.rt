//! A plan by which one file of a disc is made from several captures of it, and what can be wrong with one.
//!
//! The numbers of all captures stand in one slice, one capture after the other, and their fields are counted through
//! in it. plan_check.rt judges a plan; `specs/Plans.antt` says what makes it done.

ghost use Rattle.std.specs.Prelude.{◌≡◌, ◌↔◌, ◌<◌, ◌^◌, true};
ghost use Rattle.vbi_plan.specs.Plans.{plan_of, rank_at, CountsOn};

use std::mem::size_of;
use vbi_side::{Clock, Number};

/// The fields of a capture, among those of all.
#[derive(Clone, Copy)]
#[repr(C)]
pub struct Capture {
    /// The capture's first field.
    pub first: usize,
    /// How many fields the capture has.
    pub fields: usize,
}

/// Fields of the file that follow each other: some of a capture, or padding.
#[derive(Clone, Copy)]
#[repr(C)]
pub struct Stretch {
    /// The first of them, among the fields of all captures; of padding nothing is asked here.
    pub field: usize,
    /// How many there are.
    pub fields: usize,
    /// The capture that has them, counted from 0; of padding nothing is asked here.
    pub capture: usize,
    /// The first number for which it stands. It stands for the disc's numbers from this one to before that of the next
    /// stretch, so for none if both are the same.
    pub number: u32,
    /// 0 if it is of a capture; else it is padding.
    pub padding: u32,
}

// As include/ldvbi.h has them.
const _: () = prove!(size_of::<Capture>() == 16);

const _: () = prove!(size_of::<Stretch>() == 32);

/// How far apart the numbers of a disc stand.
#[derive(Clone, Copy)]
pub enum Spacing {
    /// Two fields.
    Video,
    /// Two fields, on a disc with numbers on both fields of a picture: each may be read in its second field alone.
    Both,
    /// Two or three fields.
    Film,
    /// One field or more, as minutes have thousands.
    Rising,
}

/// How the numbers of a plan are laid out in the file.
#[derive(Clone, Copy)]
pub struct Layout {
    /// Which numbers the disc leaves out.
    pub clock: Clock,
    /// How far apart the others stand.
    pub spacing: Spacing,
    /// The field of the file, counted from 0, in which the plan's first number begins.
    pub begin: usize,
    /// The number after the plan's last one.
    pub end: u32,
}

/// A plan, with what it is made from.
#[derive(Clone, Copy)]
pub struct Plan<'a> {
    /// How its numbers are laid out in the file.
    pub layout: Layout,
    /// The numbers of all captures, one capture after the other.
    pub numbers: &'a [Number],
    /// The captures.
    pub captures: &'a [Capture],
    /// What stands in the file, one stretch after the other.
    pub stretches: &'a [Stretch],
}

/// What a stretch of a plan breaks.
#[derive(Clone, Copy)]
pub enum PlanRule {
    /// The stretch has no field, fewer than numbers, or a number before that of an earlier stretch.
    Disordered,
    /// The stretch has fields that aren't of its capture.
    NotThere,
    /// A stretch before it has one of its fields.
    Twice,
    /// A number that the stretch shows is out of its place.
    Misplaced,
    /// Padding stands for a number that a capture has.
    Hidden,
}

/// The first stretch of a plan that isn't as it should be.
#[derive(Clone, Copy)]
pub struct PlanFault {
    /// The stretch, counted from 0.
    pub stretch: usize,
    /// What it breaks.
    pub rule: PlanRule,
}

/// Where a number stands in the file. The fields of a plan add up in 125 bits.
#[derive(Clone, Copy)]
pub(crate) struct RankedField {
    pub(crate) field: u128,
    pub(crate) rank: u32,
    ghost near: { field < 2 ^ 126 },
}

/// The rank with which a stretch begins, or with which the plan ends.
pub(crate) fn rank_at(plan: &Plan, at: usize) -> u32
    ensures { result ≡ rank_at (plan_of plan.now) at }
{
    let number = match plan.stretches.get(at) {
        Some(stretch) => stretch.number,
        None => plan.layout.end,
    };
    plan.layout.clock.kept(number)
}

/// Whether a number counts on from another one.
pub(crate) fn counts_on(spacing: Spacing, here: RankedField, there: RankedField) -> bool
    ensures { (result ≡ true) ↔ CountsOn spacing here.field here.rank there.field there.rank }
{
    let (field, rank) = (here.field, here.rank as u128);
    let (other, count) = (there.field, there.rank as u128);
    match spacing {
        Spacing::Video => {
            field + 2 * count <= other + 2 * rank && other + 2 * rank <= field + 2 * count
        }
        Spacing::Both => {
            field + 2 * count <= other + 2 * rank && other + 2 * rank <= field + 2 * count + 1
        }
        Spacing::Film => {
            field + 2 * count <= other + 2 * rank && other + 3 * rank <= field + 3 * count
        }
        Spacing::Rising => rank <= count && field + count <= other + rank,
    }
}
