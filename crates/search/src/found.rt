//! The states that a walk finds: a list, and a mark for each of 1,024 states. Both are arrays, since a search may not fail for
//! want of memory; a list type of fixed room would save the count, and the marks would stand beside it all the same. Contracts
//! see the list, and how many of it were visited.

ghost use Rattle.std.specs.Prelude.{◌≡◌, ◌<◌, ◌≤◌, ◌↔◌, [], IsTrue, MatchOption, length};
ghost use Rattle.std.specs.List.{Contains};
ghost use Rattle.search.specs.Walking.{Grown, Same, Visited};

use std::marker::Model;

/// States that were found, each once, in the order in which they were found; so many of them were visited.
#[derive(Drop)]
pub(crate) struct Found {
    marks: [bool; 1024],
    order: [u32; 1024],
    count: usize,
    visited: usize,
}

impl Model for Found {
    ghost use Rattle.std.specs.Prelude.{take};
    ghost use Rattle.search.specs.Walking.{Walk, Listed};

    ghost Value = { Walk };

    ghost view = { λ w. record { states = take w.count w.order; visited = w.visited } };

    ghost invariant = { λ w. Listed w.marks w.order w.count };
}

impl Found {
    /// No states.
    pub(crate) fn new() -> Found
        ensures { result ≡ record { states = []; visited = 0 } }
    {
        Found {
            marks: [false; 1024],
            order: [0; 1024],
            count: 0,
            visited: 0,
        }
    }

    /// The states in the order in which they were found.
    pub(crate) fn states(&self) -> &[u32]
        ensures { result.now ≡ self.now.states }
    {
        &self.order[..self.count]
    }

    /// Whether the state was found.
    pub(crate) fn has(&self, s: u32) -> bool
        ensures { IsTrue result ↔ Contains self.now.states s }
    {
        self.marks.get(s as usize).copied().unwrap_or(false)
    }

    /// Adds a state, unless it was found before.
    pub(crate) fn add(&mut self, s: u32)
        requires { s < 1024 }
        ensures { Grown (Same s) self.old self.new }
    {
        if !self.marks[s as usize] {
            self.marks[s as usize] = true;
            self.order[self.count] = s;
            self.count += 1;
        }
    }

    /// What a function gives at a state where it gives something, from the state found last to the first. The contract says no
    /// more than that it is one of them, as the choice of the next step is open.
    pub(crate) fn find_map<T, F: Fn(u32) -> Option<T>>(&self, at: F) -> Option<T>
        requires { F.IsAlwaysCallable at }
        ensures none { result ≡ None → (s : _) → Contains self.now.states s → F.post at s None }
        ensures some { (x : _) → result ≡ Some x → (s : _) × Contains self.now.states s × F.post at s (Some x) }
    {
        self.states().iter().rev().find_map(|s| at(*s))
    }

    /// The first state that was not visited yet, which then counts as visited.
    pub(crate) fn next(&mut self) -> Option<u32>
        ensures { MatchOption result ((self.new ≡ self.old) × (length self.old.states ≤ self.old.visited)) (Visited self.old self.new) }
    {
        let s = self.states().get(self.visited).copied()?;
        self.visited += 1;
        Some(s)
    }
}
