//! What a decision process is, the trait of what tells one, and the valuations of its actions. Read specs/Process.antt
//! first, then specs/Valuation.antt.

#![tactic(auto)]

ghost use Rattle.std.specs.Prelude.{◌≡◌, Bool, true, length};
ghost use Rattle.process.specs.Process.{Process, Told, InOrder, action_at, outcome_at};

mod valuation;

pub use valuation::{Down, Up, Valuing};

/// Tells a decision process, number by number, and always the same one. States, the actions of a state and the
/// outcomes of an action count from 0. Where the model is out of order or lacks what is asked for, it tells 0, false
/// or (0, 0).
pub trait Model {
    /// Everything that the model tells. Code over a model is proved against this alone.
    ghost process: { Self → Process };

    ghost ordered: { Self → Bool };

    /// Whether the rules hold of what the model tells.
    fn in_order(&self) -> bool
        ensures { result ≡ ordered self.now };

    /// The number of states.
    fn states(&self) -> u32
        ensures { result ≡ (process self.now).states };

    /// The state that a plan begins in.
    fn start(&self) -> u32
        ensures { result ≡ (process self.now).start };

    /// The price at which the book may be written off in any state.
    fn price(&self) -> u32
        ensures { result ≡ (process self.now).price };

    /// What the weights of each action's outcomes add up to.
    fn total(&self) -> u32
        ensures { result ≡ (process self.now).total };

    /// Whether the state is terminal: nothing is done and nothing costs there.
    fn terminal(&self, s: u32) -> bool
        ensures { result ≡ (process self.now).terminal s };

    /// What the rest is believed to cost at least from this state on.
    fn estimate(&self, s: u32) -> u32
        ensures { result ≡ (process self.now).estimate s };

    /// The number of actions of a state.
    fn actions(&self, s: u32) -> u32
        ensures { result ≡ length ((process self.now).actions s) };

    /// What an action of a state costs.
    fn cost(&self, s: u32, a: u32) -> u32
        ensures { result ≡ (action_at (process self.now) s a).cost };

    /// The number of outcomes of an action.
    fn outcomes(&self, s: u32, a: u32) -> u32
        ensures { result ≡ length (action_at (process self.now) s a).outcomes };

    /// An outcome of an action: the state that it leads to, and its weight. The interface of models has it as a pair.
    fn outcome(&self, s: u32, a: u32, k: u32) -> (u32, u32)
        ensures { result ≡ outcome_at (action_at (process self.now) s a) k };

    /// The law that every model owes, with its proof: it is in order exactly if the rules hold of what it tells, and
    /// otherwise tells nothing.
    ghost told: { (m : Self) → Told (process m) (ordered m) };
}

/// Whether the six rules hold of what the model tells: what `in_order` means, from the law of the model.
pub fn keeps_rules<M: Model>(model: &M) -> bool
    ensures says { result ≡ true → InOrder (M.Model.process model.now) }
    ensures only { InOrder (M.Model.process model.now) → result ≡ true }
{
    model.in_order()
}
