//! A model as text, one fact to a line.

#![tactic(auto, using(crate::specs::Texts::joined_none, crate::proofs::Written::written_more))]

ghost use Rattle.std.specs.Prelude.{◌≡◌, IfOk, string_bytes, Some};
ghost use Rattle.description.specs.Texts.{action_text, described, process_text, state_text};

use process::Model;
use std::alloc::{AllocError, Global};
use std::fmt;

/// The text that describes the model, or an error for want of memory.
pub fn describe<M: Model>(heap: Global, model: &M) -> Result<String, AllocError>
    ensures { IfOk result (λ text. string_bytes text ≡ described (M.Model.ordered model.now) (M.Model.process model.now)) }
{
    if model.in_order() {
        ProcessText { model }.to_string(heap)
    } else {
        String::from_str(heap, "out of order\n")
    }
}

/// The numbers of the whole process, and below them its states.
#[derive(Drop)]
struct ProcessText<'a, M> {
    model: &'a M,
}

/// The line of a state, and below it its actions.
#[derive(Drop)]
struct StateText<'a, M> {
    model: &'a M,
    s: u32,
}

/// The line of an action of a state, and below it its outcomes.
#[derive(Drop)]
struct ActionText<'a, M> {
    model: &'a M,
    s: u32,
    a: u32,
}

impl<M: Model> fmt::Display for ProcessText<'_, M> {
    ghost output = { λ t. Some (process_text (M.Model.process t.model.now)) };

    fn fmt<W: fmt::Write>(&self, f: &mut fmt::Formatter<W>) -> fmt::Result {
        let ProcessText { model } = *self;
        writeln!(f, "states {}", model.states())?;
        writeln!(f, "start {}", model.start())?;
        writeln!(f, "price {}", model.price())?;
        writeln!(f, "total {}", model.total())?;
        for s in 0..model.states() {
            write!(f, "{}", StateText { model, s })?;
        }
        Ok(())
    }
}

impl<M: Model> fmt::Display for StateText<'_, M> {
    ghost output = { λ t. Some (state_text (M.Model.process t.model.now) t.s) };

    fn fmt<W: fmt::Write>(&self, f: &mut fmt::Formatter<W>) -> fmt::Result {
        let StateText { model, s } = *self;
        let kind = if model.terminal(s) { "ending" } else { "open" };
        writeln!(f, "state {s} {kind} estimate {}", model.estimate(s))?;
        for a in 0..model.actions(s) {
            write!(f, "{}", ActionText { model, s, a })?;
        }
        Ok(())
    }
}

impl<M: Model> fmt::Display for ActionText<'_, M> {
    ghost output = { λ t. Some (action_text (M.Model.process t.model.now) t.s t.a) };

    fn fmt<W: fmt::Write>(&self, f: &mut fmt::Formatter<W>) -> fmt::Result {
        let ActionText { model, s, a } = *self;
        writeln!(f, "  action {a} cost {}", model.cost(s, a))?;
        for k in 0..model.outcomes(s, a) {
            let (to, weight) = model.outcome(s, a, k);
            writeln!(f, "    outcome {k} state {to} weight {weight}")?;
        }
        Ok(())
    }
}
