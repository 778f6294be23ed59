//! The checks of the records one by one, 5 to 8, and then of the rules, 9 and 10.

ghost use Rattle.std.specs.Prelude.{◌≡◌, ◌<◌};
ghost use Rattle.rcm.specs.Format.{version_1};
ghost use Rattle.rcm.specs.Checks.{Sound};
ghost use Rattle.rcm.specs.Checking.{Tried};
ghost use Rattle.checks.specs.Contents.{bytes_of};

use crate::counts::check_counts;
use crate::filled::FilledFile;
use crate::section::check_section;
use faults::RecordFault;
use rcm::{ActionRecord, Framed, OutcomeRecord, StateRecord};

impl<'a> FilledFile<'a> {
    /// Takes a file if its records pass their checks. Else tells the first fault.
    pub(crate) fn check(file: Framed<'a>) -> Result<FilledFile<'a>, RecordFault>
        ensures { Tried version_1 (bytes_of file.entry) (λ filled. filled.file ≡ file.entry) result }
    {
        let of_states = check_section::<StateRecord>(&file)?;
        let of_actions = check_section::<ActionRecord>(&file)?;
        check_section::<OutcomeRecord>(&file)?;
        check_counts(&file, of_states, of_actions)?;
        Ok(FilledFile { file })
    }

    /// Checks the rules, after which no check is left.
    pub(crate) fn check_rules(&self) -> Result<(), RecordFault>
        ensures { let b = bytes_of self.now.file in
            Tried version_1 b (λ _. Sound version_1 b) result }
    {
        self.check_weights()?;
        self.check_consistency()
    }
}
