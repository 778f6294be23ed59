//! The check that the counts of the states and of the actions add up to the header's numbers.

ghost use Rattle.std.specs.Prelude.{◌≡◌, ◌+◌, ◌<◌};
ghost use Rattle.faults.specs.declared.Cause.TheVariants.{Counts};
ghost use Rattle.rcm.specs.Format.{version_1};
ghost use Rattle.rcm.specs.Layout.{states, actions, outcomes, action_count, outcome_count, sum_below};
ghost use Rattle.rcm.specs.Checking.{Checked};
ghost use Rattle.checks.specs.Contents.{bytes_of};

use faults::{Cause, RecordFault};
use rcm::Framed;

/// Takes the sum of the states' numbers of actions, and of the actions' numbers of outcomes.
pub(crate) fn check_counts(
    file: &Framed,
    of_states: u32,
    of_actions: u32,
) -> Result<(), RecordFault>
    requires states { of_states ≡ sum_below (action_count version_1 (bytes_of file.now)) (states (bytes_of file.now)) }
    requires actions { of_actions ≡ sum_below (outcome_count version_1 (bytes_of file.now)) (actions (bytes_of file.now)) }
    ensures { let b = bytes_of file.now in
        Checked version_1 b Counts (λ _. (of_states ≡ actions b) × (of_actions ≡ outcomes b)) result }
{
    // The two tests are of records of two kinds, and tell bytes of their own.
    let head = file.head();
    if of_states != u32::from(head.actions) {
        let last = u32::from(head.states) - 1;
        return Err(Cause::Counts.fault(last, file.state(last).byte + 7));
    }
    if of_actions != u32::from(head.outcomes) {
        let last = u32::from(head.actions) - 1;
        return Err(Cause::Counts.fault(last, file.action(last).byte + 6));
    }
    Ok(())
}
