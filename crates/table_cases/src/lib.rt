//! Tests of the table file: a file at each limit loads, and one just past it is refused with its first fault; what is told
//! and printed of a file.

#![tactic(auto)]

#[cfg(test)]
mod case;
#[cfg(test)]
mod fields;
#[cfg(test)]
mod files;
#[cfg(test)]
mod order;
#[cfg(test)]
mod questions;
#[cfg(test)]
mod sizes;
#[cfg(test)]
mod texts;
