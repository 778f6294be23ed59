//! Version 1 of the table file: the widths of its records, in bytes, and the limits of its numbers.

pub const VERSION: u16 = 1;

pub const HEADER_WIDTH: u32 = 17;

pub const STATE_WIDTH: u32 = 8;

pub const ACTION_WIDTH: u32 = 7;

pub const OUTCOME_WIDTH: u32 = 4;

pub const BYTES_MOST: usize = 65_536;

pub const STATES_MOST: u32 = 1024;

pub const ACTIONS_MOST: u32 = 2048;

pub const OUTCOMES_MOST: u32 = 6000;

pub const PRICE_MOST: u32 = 1_000_000_000;

pub const KIND_TERMINAL: u8 = 1;

pub const ACTIONS_OF_STATE_MOST: u32 = 16;

pub const COST_MOST: u32 = 1_000_000;

pub const OUTCOMES_OF_ACTION_MOST: u32 = 8;

/// The weights of an action's outcomes add up to this.
pub const TOTAL: u32 = 1000;
