//! The actions' section.

ghost use Rattle.faults.specs.declared.Place.TheVariants.{InAction};
ghost use Rattle.rcm.specs.Format.{version_1};
ghost use Rattle.rcm.specs.Layout.{actions, action_byte, outcome_count};
ghost use Rattle.rcm.specs.Checks.{ActionPart, ActionsRule, action_offset};
ghost use Rattle.checks.specs.Laws.Offsets.{actions_apart, itself};

use crate::section::Section;
use faults::{FieldFault, Place, limited};
use rcm::format::{COST_MOST, OUTCOMES_OF_ACTION_MOST};
use rcm::{ActionRecord, Framed};

impl Section for ActionRecord {
    ghost Part = { ActionPart };

    ghost offset = { action_offset };

    ghost rule = { ActionsRule version_1 };

    ghost size = { actions };

    ghost first_byte = { action_byte version_1 };

    ghost owned = { outcome_count version_1 };

    ghost place = { InAction };

    ghost apart = { actions_apart };

    ghost fails = { λ _ _ _. itself };

    fn size(file: &Framed) -> u16 {
        file.head().actions
    }

    fn check(file: &Framed, a: u32, before: u32) -> Result<u32, FieldFault> {
        let action = file.action(a);
        let byte = action.byte;
        let count = u32::from(action.count);
        limited(action.cost, 1, COST_MOST, Place::InAction.fault(a, byte))?;
        limited(
            u32::from(action.first),
            before,
            before,
            Place::InAction.fault(a, byte + 4),
        )?;
        limited(
            count,
            1,
            OUTCOMES_OF_ACTION_MOST,
            Place::InAction.fault(a, byte + 6),
        )?;
        Ok(count)
    }
}
