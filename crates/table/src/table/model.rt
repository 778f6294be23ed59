//! The table as a model.

ghost use Rattle.std.specs.Prelude.{◌≡◌, ◌+◌, ◌≤◌};
ghost use Rattle.process.specs.Process.{action_at};
ghost use Rattle.rcm.specs.Format.{version_1};
ghost use Rattle.rcm.specs.Layout.{head_of, state_told, action_told, outcome_told, told, some_bytes, outcomes, action_of};
ghost use Rattle.table.specs.Held.{held};
ghost use Rattle.table.specs.Laws.Holding.{held_told};

use crate::table::Table;
use process::Model as ProcessModel;
use rcm::format::TOTAL;
use rcm::{ActionRecord, Head, OutcomeRecord, StateRecord};

impl ProcessModel for Table<'_> {
    ghost process = { λ t. told version_1 (held t.file) };

    ghost ordered = { λ t. some_bytes (held t.file) };

    ghost told = { λ t. held_told t.file t.kept };

    fn in_order(&self) -> bool {
        self.file.is_some()
    }

    fn states(&self) -> u32 {
        u32::from(self.head().states)
    }

    fn start(&self) -> u32 {
        u32::from(self.head().start)
    }

    fn price(&self) -> u32 {
        self.head().price
    }

    fn total(&self) -> u32 {
        if self.in_order() { TOTAL } else { 0 }
    }

    fn terminal(&self, s: u32) -> bool {
        self.state(s).is_terminal()
    }

    fn estimate(&self, s: u32) -> u32 {
        self.state(s).estimate
    }

    fn actions(&self, s: u32) -> u32 {
        u32::from(self.state(s).count)
    }

    fn cost(&self, s: u32, a: u32) -> u32 {
        self.action(s, a).cost
    }

    fn outcomes(&self, s: u32, a: u32) -> u32 {
        u32::from(self.action(s, a).count)
    }

    fn outcome(&self, s: u32, a: u32, k: u32) -> (u32, u32) {
        let action = self.action(s, a);
        if k >= u32::from(action.count) {
            return (0, 0);
        }
        let outcome = self.outcome_record(u32::from(action.first) + k);
        (u32::from(outcome.state), outcome.weight)
    }
}

impl Table<'_> {
    // What the file tells by number; nothing tells zeros. Each is one call of the library, with the contract that the answers
    // above rest on; a function over all four would be that call again.

    /// The numbers of the header.
    fn head(&self) -> Head
        ensures { result ≡ head_of (held self.now.file) }
    {
        self.file.map_or(Head::default(), |file| file.head())
    }

    /// The record of a state.
    fn state(&self, s: u32) -> StateRecord
        ensures { result ≡ state_told version_1 (held self.now.file) s }
    {
        self.file
            .map_or(StateRecord::default(), |file| file.state(s))
    }

    /// The record of an action, by its number in the section.
    fn action_record(&self, i: u32) -> ActionRecord
        ensures { result ≡ action_told version_1 (held self.now.file) i }
    {
        self.file
            .map_or(ActionRecord::default(), |file| file.action(i))
    }

    /// The record of an outcome, by its number in the section.
    fn outcome_record(&self, i: u32) -> OutcomeRecord
        ensures { result ≡ outcome_told version_1 (held self.now.file) i }
    {
        self.file
            .map_or(OutcomeRecord::default(), |file| file.outcome(i))
    }

    /// The record of a state's action; zeros where the state has no such action.
    fn action(&self, s: u32, a: u32) -> ActionRecord
        ensures means { let b = held self.now.file in
            action_at (told version_1 b) s a ≡ action_of version_1 b result }
        ensures inside { result.first + result.count ≤ outcomes (held self.now.file) }
    {
        let state = self.state(s);
        if a >= u32::from(state.count) {
            return ActionRecord::default();
        }
        self.action_record(u32::from(state.first) + a)
    }
}
