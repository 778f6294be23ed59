//! The outcomes' section, the last: an outcome has no records of a next one.

ghost use Rattle.faults.specs.declared.Place.TheVariants.{InOutcome};
ghost use Rattle.rcm.specs.Format.{version_1};
ghost use Rattle.rcm.specs.Layout.{outcomes, outcome_byte};
ghost use Rattle.rcm.specs.Checks.{OutcomePart, OutcomesRule, outcome_offset};
ghost use Rattle.checks.specs.Laws.Offsets.{outcomes_apart, itself};

use crate::section::Section;
use faults::{FieldFault, Place, limited};
use rcm::format::TOTAL;
use rcm::{Framed, OutcomeRecord};

impl Section for OutcomeRecord {
    ghost Part = { OutcomePart };

    ghost offset = { outcome_offset };

    ghost rule = { OutcomesRule version_1 };

    ghost size = { outcomes };

    ghost first_byte = { outcome_byte version_1 };

    ghost owned = { λ _ _. 0 };

    ghost place = { InOutcome };

    ghost apart = { outcomes_apart };

    ghost fails = { λ _ _ _. itself };

    fn size(file: &Framed) -> u16 {
        file.head().outcomes
    }

    fn check(file: &Framed, o: u32, _before: u32) -> Result<u32, FieldFault> {
        let outcome = file.outcome(o);
        let byte = outcome.byte;
        let last = u32::from(file.head().states) - 1;
        limited(
            u32::from(outcome.state),
            0,
            last,
            Place::InOutcome.fault(o, byte),
        )?;
        limited(
            outcome.weight,
            1,
            TOTAL,
            Place::InOutcome.fault(o, byte + 2),
        )?;
        Ok(0)
    }
}
