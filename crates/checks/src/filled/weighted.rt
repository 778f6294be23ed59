//! Sums over the outcomes of an action.

ghost use Rattle.std.specs.Prelude.{◌≡◌, ℕ, ◌+◌, ◌*◌, ◌<◌, ◌≤◌};
ghost use Rattle.process.specs.Process.{weighted};
ghost use Rattle.rcm.specs.Format.{version_1};
ghost use Rattle.rcm.specs.Layout.{states, outcomes, outcomes_of};
ghost use Rattle.checks.specs.Contents.{bytes_of};

use crate::filled::FilledFile;
use rcm::ActionRecord;

impl FilledFile<'_> {
    /// The sum of weight times figure over an action's outcomes, at a figure for each state.
    pub(crate) fn weighted<F: Fn(u32) -> u32>(&self, action: ActionRecord, figure: F) -> u64
        requires inside { action.first + action.count ≤ outcomes (bytes_of self.now.file) }
        requires callable { F.IsAlwaysCallable figure }
        ensures value { let b = bytes_of self.now.file in
            (f : ℕ → ℕ) → ((s n : ℕ) → s < states b → F.post figure s n → n ≡ f s) → result ≡ weighted f (outcomes_of version_1 b action) }
        ensures small { result ≤ 255 * 4294967295000 }
    {
        let first = u32::from(action.first);
        let mut sum = 0;
        // By `k`, since what is summed so far is a run of `k` outcomes from the first.
        for k in 0..u32::from(action.count) {
            let outcome = self.file.outcome(first + k);
            let figure = figure(u32::from(outcome.state));
            sum += u64::from(outcome.weight) * u64::from(figure);
        }
        sum
    }
}
