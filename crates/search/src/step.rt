//! Steps of the search, and how many were made.

ghost use Rattle.std.specs.Prelude.{◌≡◌, ◌+◌, ◌^◌, ◌<◌};
ghost use Rattle.search.specs.Making.{counted};

/// A state, and the figure that it gets. As data, since the definitions speak of steps.
#[derive(Clone, Copy)]
pub(crate) enum Step {
    Expand(u32),
    RaiseLower(u32, u32),
    RaiseUpper(u32, u32),
}

/// How many steps were made.
#[derive(Clone, Copy, Default)]
pub struct Tally {
    pub expansions: u32,
    pub backups: u32,
}

impl Tally {
    /// One step more.
    pub(crate) fn count(self, step: Step) -> Tally
        requires { self.expansions + self.backups + 1 < 2 ^ 32 }
        ensures { result ≡ counted step self }
    {
        match step {
            Step::Expand(_) => Tally {
                expansions: self.expansions + 1,
                ..self
            },
            Step::RaiseLower(_, _) | Step::RaiseUpper(_, _) => Tally {
                backups: self.backups + 1,
                ..self
            },
        }
    }
}
