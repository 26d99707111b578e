//! The plan of a file made from several captures, as C asks about it.

ghost use Rattle.std.specs.Prelude.{◌≡◌};
ghost use Rattle.vbi_c.specs.{Plans.layout_of, Plans.checked_for_c, Plans.IsChecked, Statuses.Answers};

use crate::numbers::{LdvbiClock, clock_given, rule_for_c, spacing_given};
use crate::status::{DONE, Refusal, Settled, settled};
use vbi_plan::{Capture, Layout, Plan, PlanFault, Stretch, check_plan};
use vbi_side::Number;

/// What is found of a plan.
#[derive(Clone, Copy)]
#[repr(C)]
pub struct LdvbiChecked {
    /// The first stretch that isn't as it should be, counted from 0; as many as there are if each is.
    pub stretch: usize,
    /// The rule that it breaks: 1 if it has no field, fewer than numbers, or a number before that of an earlier
    /// stretch, 2 if it takes fields that its capture hasn't, 3 if it takes one that was taken before, 4 if a number
    /// that it shows is out of its place, 5 if padding stands for a number that a capture has; else 0.
    pub rule: u32,
}

/// The layout that these numbers ask for, or why they are refused.
fn layout_of(spacing: u32, clock: &LdvbiClock, begin: usize, end: u32) -> Settled<Layout>
    ensures { result ≡ layout_of spacing clock.now begin end }
{
    let spacing = spacing_given(spacing).ok_or(Refusal::Pace)?;
    let clock = clock_given(clock).ok_or(Refusal::Clock)?;
    Ok(Layout {
        clock,
        spacing,
        begin,
        end,
    })
}

/// What is found of a plan of so many stretches.
fn checked_for_c(stretches: usize, fault: Option<PlanFault>) -> LdvbiChecked
    ensures { result ≡ checked_for_c stretches fault }
{
    let (stretch, rule) = match fault {
        Some(fault) => (fault.stretch, rule_for_c(fault.rule)),
        None => (stretches, 0),
    };
    LdvbiChecked { stretch, rule }
}

/// Whether the plan of a file is done, or which of its stretches breaks which rule: by the numbers of all captures, one
/// capture after the other.
#[unsafe(no_mangle)]
pub extern "C" fn ldvbi_check_plan(
    spacing: u32,
    begin: usize,
    end: u32,
    clock: &LdvbiClock,
    numbers: &[Number],
    captures: &[Capture],
    plan: &[Stretch],
    checked: &mut LdvbiChecked,
) -> u32
    ensures checks { Answers (layout_of spacing clock.now begin end) result
        (λ layout. IsChecked (record {
          layout = layout;
          numbers = numbers.now;
          captures = captures.now;
          stretches = plan.now;
        }) checked.new) (checked.new ≡ checked.old) }
{
    let layout = settled!(layout_of(spacing, clock, begin, end));
    let asked = Plan {
        layout,
        numbers,
        captures,
        stretches: plan,
    };
    *checked = checked_for_c(plan.len(), check_plan(&asked));
    DONE
}
