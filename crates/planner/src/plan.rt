//! A plan: a model, and the bounds of its states.

mod after;
mod calls;

use process::Model;
use search::Bounds;

#[derive(Drop)]
pub struct Plan<M: Model> {
    model: M,
    bounds: Bounds,
}
