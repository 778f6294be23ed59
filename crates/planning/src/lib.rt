//! What planning means, and why a plan can be trusted: best actions and the plan, the steps of the search, the
//! whole-model answer, what policies cost, and the promises that hold after any calls, with their proofs. The code here is
//! only the words that a planner answers in. Read the specs in the order Plan, Steps, Answer, Policies, Promises.

#![tactic(auto)]

ghost use Rattle.std.specs.Prelude.{◌≡◌};
ghost use Rattle.planning.specs.Refusals.{number};

/// What to do in a state.
#[derive(Clone, Copy, PartialEq, Eq, Debug)]
pub enum Advice {
    /// Take this action.
    Act(u32),
    /// Give the book up at the price.
    WriteOff,
    /// Nothing: the state is terminal.
    Ending,
    /// Nothing is advised: the plan does not come here.
    NotReached,
}

/// How far a plan has come.
#[derive(Clone, Copy, PartialEq, Eq, Debug)]
pub enum Phase {
    /// An expansion or a lower backup is left.
    Searching,
    /// Only upper backups are left.
    Costing,
    /// No step is left.
    Finished,
}

/// A call on a plan, as data: the promises speak of lists of calls.
#[derive(Clone, Copy, PartialEq, Eq, Debug)]
pub enum Call {
    /// Make as many steps as this.
    Work(u32),
    /// Tell the figures of the start.
    Figures,
    /// Tell what to do in this state.
    Advice(u32),
}

/// Why a call is refused.
#[derive(Clone, Copy, PartialEq, Eq, Debug)]
pub enum Refusal {
    /// The model is out of order.
    OutOfOrder = 11,
    /// The model lacks the state.
    UnknownState = 12,
    /// The plan is not finished.
    Unfinished = 13,
}

impl Refusal {
    /// The number that is told of a refusal.
    pub fn code(self) -> u8
        ensures { result ≡ number self }
    {
        self as u8
    }
}
