//! The table file: its layout, what each of its checks asks, and a file whose frame is in order, to read records from.
//! Read specs/ in the order Format, Layout, Checks.

#![tactic(auto)]

mod bytes;
pub mod format;
pub mod frame;
pub mod records;

pub use frame::Framed;
pub use records::{ActionRecord, Head, OutcomeRecord, StateRecord};
