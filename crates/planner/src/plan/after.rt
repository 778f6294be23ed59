//! Any call on a plan, and a plan from its beginning on through any calls: here the promises stand.

ghost use Rattle.std.specs.Prelude.{◌≡◌, true, false, reverse};
ghost use Rattle.planner.specs.Answering.{Answered};
ghost use Rattle.planning.specs.Promises.{Kept};
ghost use Rattle.planning.specs.Steps.{Begun};
ghost use Rattle.search.specs.Lines.{bounds_of};

use crate::answer::Answer;
use crate::plan::Plan;
use planning::{Call, Refusal};
use process::Model;

impl<M: Model> Plan<M> {
    /// Makes a call. Whatever calls were made before it on a plan over a model in order, the promises hold after it.
    pub fn answer(&mut self, call: Call) -> Result<Answer, Refusal>
        ensures model { self.new.model ≡ self.old.model }
        ensures answered { let m = self.old.model in
            Answered (M.Model.ordered m) (M.Model.process m) self.old.bounds self.new.bounds call result }
    {
        match call {
            Call::Work(budget) => {
                let (expansions, backups, phase) = self.work(budget)?;
                Ok(Answer::Worked(expansions, backups, phase))
            }
            Call::Figures => {
                let (lower, upper, phase) = self.figures()?;
                Ok(Answer::Figured(lower, upper, phase))
            }
            Call::Advice(state) => Ok(Answer::Advised(self.advice(state)?)),
        }
    }

    /// The plan after a list of calls. Over a model in order the promises hold of it; over another, it is as it began.
    pub fn after(model: M, calls: &[Call]) -> Plan<M>
        ensures model { result.model ≡ model }
        ensures kept { M.Model.ordered model ≡ true → Kept (M.Model.process model) (reverse calls.now) (bounds_of result.bounds) }
        ensures untouched { M.Model.ordered model ≡ false → Begun (M.Model.process model) (bounds_of result.bounds) }
    {
        let mut plan = Plan::begin(model);
        for call in calls {
            let _ = plan.answer(*call);
        }
        plan
    }
}
