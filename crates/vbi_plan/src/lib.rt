//! Plans of a file: which fields of which captures make it, and whether it is the disc.
//!
//! `plan` has the parts of a plan, and `plan_check` walks over one and answers the first rule that it breaks.
//! `plan_laws` says what holds of a plan that breaks none. Nothing allocates or fails.
#![tactic(auto)]

mod plan;
mod plan_check;
pub mod plan_laws;

pub use plan::{Capture, Layout, Plan, PlanFault, PlanRule, Spacing, Stretch};
pub use plan_check::check_plan;
