//! The planner: a plan over any model that is worked on in portions, read at any time, and trusted. Read the specs of the
//! crate `planning` first; specs/Calls.antt here says what each call answers.

#![tactic(auto)]

mod answer;
mod plan;

pub use answer::Answer;
pub use plan::Plan;
