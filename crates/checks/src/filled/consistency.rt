//! The check that no estimate is above what an action costs with the estimates after it.

ghost use Rattle.std.specs.Prelude.{◌≡◌, ℕ, ◌<◌, MatchResult};
ghost use Rattle.faults.specs.declared.Cause.TheVariants.{Consistency};
ghost use Rattle.rcm.specs.Format.{version_1};
ghost use Rattle.rcm.specs.Layout.{states, actions, action_byte, state_record};
ghost use Rattle.rcm.specs.Checks.{Has, Consistent, ConsistencyRule};
ghost use Rattle.rcm.specs.Checking.{Checked, Holds};
ghost use Rattle.checks.specs.Contents.{bytes_of};
ghost use Rattle.checks.specs.Filling.{FirstInconsistent};

use crate::filled::FilledFile;
use faults::{Cause, RecordFault};
use rcm::format::TOTAL;

impl FilledFile<'_> {
    /// Checks a state's estimate against one of its actions.
    fn check_action(&self, s: u32, a: u32) -> Result<(), RecordFault>
        requires state { s < states (bytes_of self.now.file) }
        requires action { a < actions (bytes_of self.now.file) }
        ensures { let b = bytes_of self.now.file in
            MatchResult result (λ _. Consistent version_1 b s a) (λ f. (f.cause ≡ Consistency) × (f.«record» ≡ a) × (f.byte ≡ action_byte version_1 b a) × (Consistent version_1 b s a → ⊥)) }
    {
        let action = self.file.action(a);
        let estimates = self.weighted(action, |state| self.file.state(state).estimate);
        let least = u64::from(action.cost) * u64::from(TOTAL) + estimates;
        if u64::from(self.file.state(s).estimate) * u64::from(TOTAL) > least {
            return Err(Cause::Consistency.fault(a, action.byte));
        }
        Ok(())
    }

    /// Checks a state's estimate against each of its actions.
    fn check_state(&self, s: u32) -> Result<(), RecordFault>
        requires { s < states (bytes_of self.now.file) }
        ensures { let b = bytes_of self.now.file in
            MatchResult result (λ _. (a : ℕ) → Has (state_record version_1 b s) a → Consistent version_1 b s a) (λ f. (f.cause ≡ Consistency) × FirstInconsistent version_1 b s f.«record» f.byte) }
    {
        let state = self.file.state(s);
        let first = u32::from(state.first);
        for a in first..first + u32::from(state.count) {
            self.check_action(s, a)?;
        }
        Ok(())
    }

    pub(crate) fn check_consistency(&self) -> Result<(), RecordFault>
        ensures { let b = bytes_of self.now.file in
            Checked version_1 b Consistency (λ _. Holds (actions b) (ConsistencyRule version_1 b)) result }
    {
        for s in 0..u32::from(self.file.head().states) {
            self.check_state(s)?;
        }
        Ok(())
    }
}
