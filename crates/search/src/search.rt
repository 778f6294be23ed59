//! The choice of the next step: a step from these bounds, or none is left. Expansions come first, then lower backups, then
//! upper backups, each at the state that the walk over the plan found last: states far from the start before those near it.

ghost use Rattle.std.specs.Prelude.{MatchOption};
ghost use Rattle.planning.specs.Steps.{Finished, PhaseIs};
ghost use Rattle.search.specs.Lines.{bounds_of};
ghost use Rattle.search.specs.Stepping.{Next, Expands, RaisesLower, RaisesUpper};

use crate::step::Step;
use crate::view::View;
use planning::Phase;
use process::{Model, Valuing};

impl<M: Model> View<'_, M> {
    /// The expansion that a state wants.
    fn expansion_at(self, s: u32) -> Option<Step>
        ensures { Expands (M.Model.process self.entry.model.now) (bounds_of self.entry.bounds.now) s result }
    {
        let wanted = !self.model.terminal(s) && !self.bounds.expanded(s);
        wanted.then_some(Step::Expand(s))
    }

    // The two backups differ in their figure, their value, their step and the valuations that they need; what is the same is the
    // test of one number.

    /// The lower backup that raises the lower figure of a state.
    fn lower_backup_at<V: Valuing>(self, s: u32) -> Option<Step>
        ensures { RaisesLower V.Valuing.valuation (M.Model.process self.entry.model.now) (bounds_of self.entry.bounds.now) s result }
    {
        if self.model.terminal(s) {
            return None;
        }
        let value = self.lower_value::<V>(s);
        (self.bounds.lower(s) < value).then_some(Step::RaiseLower(s, value))
    }

    /// The upper backup that raises the upper figure of a state.
    fn upper_backup_at<V: Valuing, W: Valuing>(self, s: u32) -> Option<Step>
        ensures { RaisesUpper V.Valuing.valuation W.Valuing.valuation (M.Model.process self.entry.model.now) (bounds_of self.entry.bounds.now) s result }
    {
        if self.model.terminal(s) {
            return None;
        }
        let value = self.upper_value::<V, W>(s);
        (self.bounds.upper(s) < value).then_some(Step::RaiseUpper(s, value))
    }

    /// A step that can be made next, or none where the plan is finished.
    pub(crate) fn next_step<V: Valuing, W: Valuing>(self) -> Option<Step>
        ensures { let p = M.Model.process self.entry.model.now in let x = bounds_of self.entry.bounds.now in
            MatchOption result (Finished V.Valuing.valuation W.Valuing.valuation p x) (Next V.Valuing.valuation W.Valuing.valuation p x) }
    {
        let found = self.planned::<V>();
        // Not by `or_else`: its closures hold the others, and their facts do not come through a case of the result.
        if let Some(step) = found.find_map(|s| self.expansion_at(s)) {
            return Some(step);
        }
        if let Some(step) = found.find_map(|s| self.lower_backup_at::<V>(s)) {
            return Some(step);
        }
        found.find_map(|s| self.upper_backup_at::<V, W>(s))
    }

    /// The phase, by what steps are left.
    pub fn phase<V: Valuing, W: Valuing>(self) -> Phase
        ensures { PhaseIs V.Valuing.valuation W.Valuing.valuation (M.Model.process self.entry.model.now) (bounds_of self.entry.bounds.now) result }
    {
        match self.next_step::<V, W>() {
            Some(Step::Expand(_) | Step::RaiseLower(_, _)) => Phase::Searching,
            Some(Step::RaiseUpper(_, _)) => Phase::Costing,
            None => Phase::Finished,
        }
    }
}
