//! The header and the records of a table file, as their numbers. A record also knows its first byte. Zeros, the defaults, are
//! told of what there is not.

ghost use Rattle.std.specs.Prelude.{◌≡◌};
ghost use Rattle.rcm.specs.Format.{version_1};
ghost use Rattle.rcm.specs.Layout.{is_terminal, actions_byte, outcomes_byte, end_byte};

use crate::format::{ACTION_WIDTH, HEADER_WIDTH, KIND_TERMINAL, OUTCOME_WIDTH, STATE_WIDTH};

#[derive(Clone, Copy, Default)]
pub struct Head {
    pub states: u16,
    pub start: u16,
    pub actions: u16,
    pub outcomes: u16,
    pub price: u32,
}

impl Head {
    /// Where the actions' section begins.
    pub fn actions_byte(self) -> u32
        ensures { result ≡ actions_byte version_1 self }
    {
        HEADER_WIDTH + STATE_WIDTH * u32::from(self.states)
    }

    /// Where the outcomes' section begins.
    pub fn outcomes_byte(self) -> u32
        ensures { result ≡ outcomes_byte version_1 self }
    {
        self.actions_byte() + ACTION_WIDTH * u32::from(self.actions)
    }

    /// Where the outcomes' section, and with it the file, ends.
    pub fn end_byte(self) -> u32
        ensures { result ≡ end_byte version_1 self }
    {
        self.outcomes_byte() + OUTCOME_WIDTH * u32::from(self.outcomes)
    }
}

/// A state: its kind (0 open, 1 terminal), its estimate, and its actions: the first and how many.
#[derive(Clone, Copy, Default)]
pub struct StateRecord {
    pub byte: u32,
    // A number and no enum: a record tells its bytes as they stand, before the check that refuses a kind above 1.
    pub kind: u8,
    pub estimate: u32,
    pub first: u16,
    pub count: u8,
}

/// An action: its cost, and its outcomes: the first and how many.
#[derive(Clone, Copy, Default)]
pub struct ActionRecord {
    pub byte: u32,
    pub cost: u32,
    pub first: u16,
    pub count: u8,
}

/// An outcome: a state and its weight.
#[derive(Clone, Copy, Default)]
pub struct OutcomeRecord {
    pub byte: u32,
    pub state: u16,
    pub weight: u32,
}

impl StateRecord {
    pub fn is_terminal(self) -> bool
        ensures { result ≡ is_terminal self }
    {
        self.kind == KIND_TERMINAL
    }
}
