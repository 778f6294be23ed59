//! Tests of plans: what a plan answers to one call after another, over small files whose answers are known.

#![tactic(auto)]

#[cfg(test)]
mod files;
#[cfg(test)]
mod talks;
