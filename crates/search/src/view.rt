//! A model and the bounds of its states, looked at together.

use crate::bounds::Bounds;
use process::Model;

/// What the search reads: a model, and what is known of its states.
#[derive_where(Clone, Copy)]
pub struct View<'a, M: Model> {
    pub model: &'a M,
    pub bounds: &'a Bounds,
}
