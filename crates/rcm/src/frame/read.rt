//! Reads the header and the records of a framed file. A record comes with its first byte.

ghost use Rattle.std.specs.Prelude.{◌≡◌, ◌+◌, ◌<◌};
ghost use Rattle.rcm.specs.Format.{version_1};
ghost use Rattle.rcm.specs.Layout.{head_of, state_told, action_told, outcome_told};

use crate::bytes::{u16_at, u32_at};
use crate::format::{ACTION_WIDTH, HEADER_WIDTH, OUTCOME_WIDTH, STATE_WIDTH};
use crate::frame::Framed;
use crate::records::{ActionRecord, Head, OutcomeRecord, StateRecord};

impl<'a> Framed<'a> {
    /// The bytes of the file.
    pub fn bytes(&self) -> &'a [u8]
        ensures { result.now ≡ self.now.bytes.now }
    {
        self.bytes
    }

    /// The numbers of the header.
    pub fn head(&self) -> Head
        ensures { result ≡ head_of self.now.bytes.now }
    {
        self.header
    }

    // One function for each kind of record: they share the test of the number, and read different fields.

    /// A state's record; zeros for a state that the file lacks.
    pub fn state(&self, s: u32) -> StateRecord
        ensures { result ≡ state_told version_1 self.now.bytes.now s }
    {
        if s >= u32::from(self.header.states) {
            return StateRecord::default();
        }
        let byte = HEADER_WIDTH + STATE_WIDTH * s;
        let at = byte as usize;
        StateRecord {
            byte,
            kind: self.bytes[at],
            estimate: u32_at(self.bytes, at + 1),
            first: u16_at(self.bytes, at + 5),
            count: self.bytes[at + 7],
        }
    }

    /// An action's record; zeros for an action that the file lacks.
    pub fn action(&self, a: u32) -> ActionRecord
        ensures { result ≡ action_told version_1 self.now.bytes.now a }
    {
        if a >= u32::from(self.header.actions) {
            return ActionRecord::default();
        }
        let byte = self.header.actions_byte() + ACTION_WIDTH * a;
        let at = byte as usize;
        ActionRecord {
            byte,
            cost: u32_at(self.bytes, at),
            first: u16_at(self.bytes, at + 4),
            count: self.bytes[at + 6],
        }
    }

    /// An outcome's record; zeros for an outcome that the file lacks.
    pub fn outcome(&self, o: u32) -> OutcomeRecord
        ensures { result ≡ outcome_told version_1 self.now.bytes.now o }
    {
        if o >= u32::from(self.header.outcomes) {
            return OutcomeRecord::default();
        }
        let byte = self.header.outcomes_byte() + OUTCOME_WIDTH * o;
        let at = byte as usize;
        OutcomeRecord {
            byte,
            state: u16_at(self.bytes, at),
            weight: u32::from(u16_at(self.bytes, at + 2)),
        }
    }
}
