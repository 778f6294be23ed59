//! The search of a plan: bounds of 1,024 states, the choice of an action, the walk over the plan, the next step, and steps
//! made one after another. Read the specs of the crate `planning` first; those here say what the code's own types mean.

#![tactic(auto)]

mod advice;
mod bounds;
mod choice;
mod found;
mod run;
mod search;
mod step;
mod view;
mod walk;

pub use bounds::Bounds;
pub use run::advance;
pub use step::Tally;
pub use view::View;
