//! Gives a model, or the model that a table file means, as text, one fact to a line; specs/Texts.antt says what each line
//! is, and specs/Files.antt what is told of a file.

#![tactic(auto)]

mod file;
mod model;

pub use file::describe_file;
pub use model::describe;
