//! What an action is worth, and which action of a state is best.

ghost use Rattle.std.specs.Prelude.{◌≡◌, ◌<◌, ◌^◌, ℕ, length};
ghost use Rattle.planning.specs.Plan.{value, backup, upper_backup};
ghost use Rattle.process.specs.Process.{action_at};
ghost use Rattle.search.specs.Choosing.{Chosen};
ghost use Rattle.search.specs.Lines.{bounds_of};

use crate::view::View;
use process::{Model, Valuing};

/// An action, and what it is worth by the lower figures.
#[derive(Clone, Copy)]
pub(crate) struct Pick {
    pub action: u32,
    pub value: u32,
}

impl<M: Model> View<'_, M> {
    /// What an action of a state is worth, by a figure of each of its outcomes.
    fn action_value<V: Valuing, F: Fn(u32) -> u32>(self, s: u32, a: u32, figure: F) -> u64
        requires within { a < length ((M.Model.process self.model.now).actions s) }
        requires callable { F.IsAlwaysCallable figure }
        ensures { let p = M.Model.process self.entry.model.now in
            (f : ℕ → ℕ) → ((to n : ℕ) → to < 2 ^ 32 → F.post figure to n → n ≡ f to) → result ≡ value V.Valuing.valuation p f (action_at p s a) }
    {
        // Read first, beside the number of outcomes: a table has both in one record.
        let cost = self.model.cost(s, a);
        let mut all = V::none();
        for k in 0..self.model.outcomes(s, a) {
            let (to, weight) = self.model.outcome(s, a, k);
            all = V::gather(all, figure(to), weight);
        }
        V::close(all, self.model.total(), cost)
    }

    /// The best action of a state. There is none where the state is written off.
    // Inlined, since each walk asks it of every state that it visits.
    #[inline]
    pub(crate) fn choose<V: Valuing>(self, s: u32) -> Option<Pick>
        ensures { Chosen V.Valuing.valuation (M.Model.process self.entry.model.now) (bounds_of self.entry.bounds.now).lower s result }
    {
        let mut least = self.model.price();
        let mut best = None;
        for a in 0..self.model.actions(s) {
            let value = self.action_value::<V, _>(s, a, |to| self.bounds.lower(to));
            if value < u64::from(least) {
                least = value as u32;
                best = Some(a);
            }
        }
        let action = best?;
        Some(Pick {
            action,
            value: least,
        })
    }

    /// What a lower backup of a state gives.
    pub(crate) fn lower_value<V: Valuing>(self, s: u32) -> u32
        ensures { result ≡ backup V.Valuing.valuation (M.Model.process self.entry.model.now) (bounds_of self.entry.bounds.now).lower s }
    {
        self.choose::<V>(s)
            .map_or(self.model.price(), |pick| pick.value)
    }

    /// What an upper backup of a state gives.
    pub(crate) fn upper_value<V: Valuing, W: Valuing>(self, s: u32) -> u32
        ensures { let x = bounds_of self.entry.bounds.now in
            result ≡ upper_backup V.Valuing.valuation W.Valuing.valuation (M.Model.process self.entry.model.now) x.lower x.upper s }
    {
        let price = self.model.price();
        let Some(pick) = self.choose::<V>(s) else {
            return price;
        };
        let value = self.action_value::<W, _>(s, pick.action, |to| self.bounds.upper(to));
        value.min(u64::from(price)) as u32
    }
}
