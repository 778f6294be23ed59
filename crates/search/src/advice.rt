//! What a plan advises in a state.

ghost use Rattle.planning.specs.Plan.{Advised};
ghost use Rattle.search.specs.Lines.{bounds_of};

use crate::view::View;
use planning::Advice;
use process::{Model, Valuing};

impl<M: Model> View<'_, M> {
    /// The advice for a state. A terminal state is told first; then whether the plan reaches the state.
    pub fn advise<V: Valuing>(self, s: u32) -> Advice
        ensures { let x = bounds_of self.entry.bounds.now in
            Advised V.Valuing.valuation (M.Model.process self.entry.model.now) x.expanded x.lower x.upper s result }
    {
        if self.model.terminal(s) {
            return Advice::Ending;
        }
        if !self.reaches::<V>(s) {
            return Advice::NotReached;
        }
        match self.choose::<V>(s) {
            Some(pick) if self.bounds.upper(s) != self.model.price() => Advice::Act(pick.action),
            _ => Advice::WriteOff,
        }
    }
}
