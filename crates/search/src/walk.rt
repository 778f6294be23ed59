//! The states of a plan: a walk from the start along the best actions.

ghost use Rattle.std.specs.Prelude.{◌<◌, ◌↔◌, IsTrue, length};
ghost use Rattle.planning.specs.Steps.{Planned};
ghost use Rattle.process.specs.Process.{action_at};
ghost use Rattle.search.specs.Lines.{bounds_of};
ghost use Rattle.search.specs.Walking.{Grown, Among, Leads, Surveyed};

use crate::found::Found;
use crate::view::View;
use process::{Model, Valuing};

impl<M: Model> View<'_, M> {
    /// Finds the outcomes of an action.
    fn find_outcomes(self, s: u32, a: u32, found: &mut Found)
        requires { a < length ((M.Model.process self.model.now).actions s) }
        ensures { Grown (Among (action_at (M.Model.process self.entry.model.now) s a).outcomes) found.old found.new }
    {
        for k in 0..self.model.outcomes(s, a) {
            let (to, _) = self.model.outcome(s, a, k);
            found.add(to);
        }
    }

    /// Finds the states that a state leads to.
    fn visit<V: Valuing>(self, s: u32, found: &mut Found)
        ensures { Grown (Leads V.Valuing.valuation (M.Model.process self.entry.model.now) (bounds_of self.entry.bounds.now) s) found.old found.new }
    {
        if !self.model.terminal(s)
            && self.bounds.expanded(s)
            && let Some(pick) = self.choose::<V>(s)
        {
            self.find_outcomes(s, pick.action, found);
        }
    }

    /// The plan's states, as a walk from the start finds them.
    pub(crate) fn planned<V: Valuing>(self) -> Found
        ensures { Surveyed V.Valuing.valuation (M.Model.process self.entry.model.now) (bounds_of self.entry.bounds.now) result.states }
    {
        let mut found = Found::new();
        found.add(self.model.start());
        while let Some(s) = found.next() {
            self.visit::<V>(s, &mut found);
        }
        found
    }

    /// Whether the plan comes to a state.
    pub(crate) fn reaches<V: Valuing>(self, s: u32) -> bool
        ensures { IsTrue result ↔ Planned V.Valuing.valuation (M.Model.process self.entry.model.now) (bounds_of self.entry.bounds.now) s }
    {
        self.planned::<V>().has(s)
    }
}
