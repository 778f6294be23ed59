//! The calls on a plan. None asks anything of its caller, and a refusal leaves the plan as it was.

ghost use Rattle.std.specs.Prelude.{◌≡◌, MatchResult, true, false};
ghost use Rattle.planner.specs.Calls.{WorkAnswered, FiguresAnswered, AdviceAnswered};
ghost use Rattle.planning.specs.Refusals.{number};
ghost use Rattle.planning.specs.Steps.{Begun, PhaseIs};
ghost use Rattle.process.specs.Valuation.{down, up};
ghost use Rattle.search.specs.Lines.{bounds_of};

use crate::plan::Plan;
use planning::{Advice, Phase, Refusal};
use process::{Down, Model, Up};
use search::{Bounds, View, advance};

impl<M: Model> Plan<M> {
    /// A plan over a model, with no work done.
    pub fn begin(model: M) -> Plan<M>
        ensures model { result.model ≡ model }
        ensures begun { Begun (M.Model.process model) (bounds_of result.bounds) }
    {
        let bounds = Bounds::begin(&model);
        Plan { model, bounds }
    }

    /// Refuses a model that is out of order.
    fn in_order(&self) -> Result<(), Refusal>
        ensures { MatchResult result (λ _. M.Model.ordered self.now.model ≡ true) (λ refusal. (number refusal ≡ 11) × (M.Model.ordered self.now.model ≡ false)) }
    {
        self.model
            .in_order()
            .then_some(())
            .ok_or(Refusal::OutOfOrder)
    }

    fn view(&self) -> View<'_, M>
        ensures model { result.model.now ≡ self.now.model }
        ensures bounds { result.bounds.now ≡ self.now.bounds }
    {
        View {
            model: &self.model,
            bounds: &self.bounds,
        }
    }

    /// The phase, by what steps are left.
    fn phase(&self) -> Phase
        ensures { PhaseIs down up (M.Model.process self.now.model) (bounds_of self.now.bounds) result }
    {
        self.view().phase::<Down, Up>()
    }

    /// Makes steps until as many are made as the budget grants, or none is left. Tells the expansions, the backups and
    /// the phase, as the tuple that the interface has.
    pub fn work(&mut self, budget: u32) -> Result<(u32, u32, Phase), Refusal>
        ensures model { self.new.model ≡ self.old.model }
        ensures answered { let m = self.old.model in
            WorkAnswered (M.Model.ordered m) (M.Model.process m) self.old.bounds self.new.bounds budget result }
    {
        self.in_order()?;
        let tally = advance::<M, Down, Up>(&self.model, &mut self.bounds, budget);
        Ok((tally.expansions, tally.backups, self.phase()))
    }

    /// The lower figure, the upper figure and the phase, as the tuple that the interface has. The upper figure is the price
    /// until the plan is finished.
    pub fn figures(&self) -> Result<(u32, u32, Phase), Refusal>
        ensures { let m = self.now.model in
            FiguresAnswered (M.Model.ordered m) (M.Model.process m) self.now.bounds result }
    {
        self.in_order()?;
        let start = self.model.start();
        let phase = self.phase();
        let upper = match phase {
            Phase::Searching | Phase::Costing => self.model.price(),
            Phase::Finished => self.bounds.upper(start),
        };
        Ok((self.bounds.lower(start), upper, phase))
    }

    /// What a finished plan advises in a state.
    pub fn advice(&self, state: u32) -> Result<Advice, Refusal>
        ensures { let m = self.now.model in
            AdviceAnswered (M.Model.ordered m) (M.Model.process m) self.now.bounds state result }
    {
        self.in_order()?;
        if state >= self.model.states() {
            return Err(Refusal::UnknownState);
        }
        match self.phase() {
            Phase::Searching | Phase::Costing => Err(Refusal::Unfinished),
            Phase::Finished => Ok(self.view().advise::<Down>(state)),
        }
    }
}
