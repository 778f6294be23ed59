//! The states' section.

ghost use Rattle.std.specs.Prelude.{◌≡◌};
ghost use Rattle.faults.specs.declared.Place.TheVariants.{InState};
ghost use Rattle.rcm.specs.Format.{version_1};
ghost use Rattle.rcm.specs.Layout.{states, state_byte, action_count};
ghost use Rattle.rcm.specs.Checks.{StatePart, StatesRule, state_offset, unless_terminal};
ghost use Rattle.checks.specs.Laws.Offsets.{states_apart, itself};

use crate::section::Section;
use faults::{FieldFault, Place, limited};
use rcm::format::ACTIONS_OF_STATE_MOST;
use rcm::{Framed, StateRecord};

/// A limit that is 0 for a terminal state.
fn unless_terminal(state: StateRecord, most: u32) -> u32
    ensures { result ≡ unless_terminal state most }
{
    if state.is_terminal() { 0 } else { most }
}

impl Section for StateRecord {
    ghost Part = { StatePart };

    ghost offset = { state_offset };

    ghost rule = { StatesRule version_1 };

    ghost size = { states };

    ghost first_byte = { λ _. state_byte version_1 };

    ghost owned = { action_count version_1 };

    ghost place = { InState };

    ghost apart = { λ _. states_apart };

    ghost fails = { λ _ _ _. itself };

    fn size(file: &Framed) -> u16 {
        file.head().states
    }

    fn check(file: &Framed, s: u32, before: u32) -> Result<u32, FieldFault> {
        let state = file.state(s);
        let byte = state.byte;
        let estimate_most = unless_terminal(state, file.head().price);
        let count_most = unless_terminal(state, ACTIONS_OF_STATE_MOST);
        let count = u32::from(state.count);
        limited(u32::from(state.kind), 0, 1, Place::InState.fault(s, byte))?;
        limited(
            state.estimate,
            0,
            estimate_most,
            Place::InState.fault(s, byte + 1),
        )?;
        limited(
            u32::from(state.first),
            before,
            before,
            Place::InState.fault(s, byte + 5),
        )?;
        limited(count, 0, count_most, Place::InState.fault(s, byte + 7))?;
        Ok(count)
    }
}
