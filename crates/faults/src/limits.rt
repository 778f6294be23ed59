//! The test of a field: its limits, or its fault.

ghost use Rattle.std.specs.Prelude.{◌≡◌, MatchResult};
ghost use Rattle.faults.specs.Limits.{Within};

use crate::FieldFault;

/// Passes exactly if the value is within its limits; the fault is told as it is given.
// The limits are two numbers: a `RangeInclusive` may be half walked through, which the contract would have to tell.
pub fn limited(value: u32, low: u32, high: u32, fault: FieldFault) -> Result<(), FieldFault>
    ensures { MatchResult result (λ _. Within low high value) (λ e. (e ≡ fault) × (Within low high value → ⊥)) }
{
    (low..=high).contains(&value).then_some(()).ok_or(fault)
}
