//! A table: a borrowed table file that keeps the layout, or nothing; loaded from bytes, and told as a model. Read the
//! specs of the crate `rcm` first; specs/Laws here proves that what a table tells keeps the rules of a model.

#![tactic(auto)]

mod table;

pub use table::Table;
