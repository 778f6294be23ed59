//! The check that the weights of each action's outcomes add up to the total.

ghost use Rattle.std.specs.Prelude.{◌≡◌};
ghost use Rattle.faults.specs.declared.Cause.TheVariants.{Weights};
ghost use Rattle.rcm.specs.Format.{version_1};
ghost use Rattle.rcm.specs.Layout.{actions};
ghost use Rattle.rcm.specs.Checks.{WeightsRule};
ghost use Rattle.rcm.specs.Checking.{Checked, Holds};
ghost use Rattle.checks.specs.Contents.{bytes_of};

use crate::filled::FilledFile;
use faults::{Cause, RecordFault};
use rcm::format::TOTAL;

impl FilledFile<'_> {
    pub(crate) fn check_weights(&self) -> Result<(), RecordFault>
        ensures { let b = bytes_of self.now.file in
            Checked version_1 b Weights (λ _. Holds (actions b) (WeightsRule version_1 b)) result }
    {
        for a in 0..u32::from(self.file.head().actions) {
            let action = self.file.action(a);
            if self.weighted(action, |_| 1) != u64::from(TOTAL) {
                return Err(Cause::Weights.fault(a, action.byte));
            }
        }
        Ok(())
    }
}
