//! Steps, one after another.

ghost use Rattle.planning.specs.Steps.{Worked};
ghost use Rattle.search.specs.Lines.{bounds_of};

use crate::bounds::Bounds;
use crate::step::Tally;
use crate::view::View;
use process::{Model, Valuing};

/// Makes as many steps as the budget grants, or fewer where none is left, and tells how many of each kind.
pub fn advance<M: Model, V: Valuing, W: Valuing>(
    model: &M,
    bounds: &mut Bounds,
    budget: u32,
) -> Tally
    ensures { Worked V.Valuing.valuation W.Valuing.valuation (M.Model.process model.now) (bounds_of bounds.old) (bounds_of bounds.new) budget result.expansions result.backups }
{
    let mut tally = Tally::default();
    for _made in 0..budget {
        let Some(step) = View { model, bounds }.next_step::<V, W>() else {
            break;
        };
        bounds.make(step);
        tally = tally.count(step);
    }
    tally
}
