//! The answer to any call, with what the call gives as it gives it.

use planning::{Advice, Phase};

#[derive(Clone, Copy, PartialEq, Eq, Debug)]
pub enum Answer {
    /// To work: the expansions and the backups that were made, and the phase.
    Worked(u32, u32, Phase),
    /// To figures: the lower figure, the upper figure, and the phase.
    Figured(u32, u32, Phase),
    /// To advice.
    Advised(Advice),
}
