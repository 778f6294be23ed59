//! What is known of each state, in a line for each of 1,024 states, used or not.

ghost use Rattle.std.specs.Prelude.{◌≡◌, ◌<◌};
ghost use Rattle.planning.specs.Steps.{Begun};
ghost use Rattle.search.specs.Lines.{line_at, bounds_of};
ghost use Rattle.search.specs.Making.{Made, state_of};

use crate::step::Step;
use process::Model;

/// What is known of a state: whether it is expanded, a lower figure and an upper figure. Before any step, and but for its
/// estimate, a line is the default.
#[derive(Clone, Copy, Default)]
struct Line {
    expanded: bool,
    lower: u32,
    upper: u32,
}

/// A line for each state, in an array: so the interface has it, and a search may not fail for want of memory.
#[derive(Drop)]
pub struct Bounds {
    lines: [Line; 1024],
}

impl Bounds {
    /// The bounds before any step: no state is expanded, the lower figures are the estimates, the upper figures 0.
    pub fn begin<M: Model>(model: &M) -> Bounds
        ensures { Begun (M.Model.process model.now) (bounds_of result) }
    {
        let mut lines = [Line::default(); 1024];
        for (s, line) in lines.iter_mut().enumerate() {
            *line = Line {
                expanded: false,
                lower: model.estimate(s as u32),
                upper: 0,
            };
        }
        Bounds { lines }
    }

    fn line(&self, s: u32) -> Line
        ensures { result ≡ line_at self.now s }
    {
        self.lines.get(s as usize).copied().unwrap_or_default()
    }

    /// Whether the state is expanded.
    pub fn expanded(&self, s: u32) -> bool
        ensures { result ≡ (bounds_of self.now).expanded s }
    {
        self.line(s).expanded
    }

    /// The lower figure of a state.
    pub fn lower(&self, s: u32) -> u32
        ensures { result ≡ (bounds_of self.now).lower s }
    {
        self.line(s).lower
    }

    /// The upper figure of a state.
    pub fn upper(&self, s: u32) -> u32
        ensures { result ≡ (bounds_of self.now).upper s }
    {
        self.line(s).upper
    }

    /// Makes a step: writes one entry of one line.
    pub(crate) fn make(&mut self, step: Step)
        requires { state_of step < 1024 }
        ensures { Made step (bounds_of self.old) (bounds_of self.new) }
    {
        match step {
            Step::Expand(s) => self.lines[s as usize].expanded = true,
            Step::RaiseLower(s, figure) => self.lines[s as usize].lower = figure,
            Step::RaiseUpper(s, figure) => self.lines[s as usize].upper = figure,
        }
    }
}
