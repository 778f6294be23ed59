//! Valuations in code: the outcomes of an action are gathered one by one into a number, which is then closed with the
//! cost. Read specs/Valuation.antt first.

ghost use Rattle.std.specs.Prelude.{List, [], ◌≡◌, ℕ, ◌/◌, ◌≤◌};
ghost use Rattle.process.specs.Gathering.{Light, one_more};
ghost use Rattle.process.specs.Valuation.{Valuation, Monotone, down, up, sum_seen};
ghost use Rattle.process.specs.Rounding.{down_monotone, up_monotone};

/// Makes one number of an action's cost and its outcomes' weights and figures. A search serves every valuation that
/// keeps the law.
pub trait Valuing {
    ghost valuation: { Valuation };

    /// What is kept of the outcomes so far.
    ghost gathered: { List (ℕ × ℕ) → ℕ };

    /// No outcome yet.
    fn none() -> u64
        ensures { result ≡ gathered [] };

    /// One outcome more.
    fn gather(so_far: u64, figure: u32, weight: u32) -> u64
        ensures { (os : List (ℕ × ℕ)) → so_far ≡ gathered os → Light (one_more os figure weight) → result ≡ gathered (one_more os figure weight) };

    /// The valuation of all outcomes.
    fn close(all: u64, total: u32, cost: u32) -> u64
        ensures { (os : List (ℕ × ℕ)) → all ≡ gathered os → Light os → 1 ≤ total → result ≡ valuation total cost os };

    /// If no figure gets smaller, the result does not.
    ghost monotone: { Monotone valuation };
}

/// The quotient, and 0 where the divisor is 0.
fn quotient(n: u64, divisor: u32) -> u64
    ensures { result ≡ n / divisor }
{
    n.checked_div(u64::from(divisor)).unwrap_or(0)
}

/// The cost and the average, rounded down once.
pub struct Down;

impl Valuing for Down {
    ghost valuation = { down };

    ghost gathered = { sum_seen };

    ghost monotone = { down_monotone };

    fn none() -> u64 {
        0
    }

    fn gather(so_far: u64, figure: u32, weight: u32) -> u64 {
        so_far.saturating_add(u64::from(weight) * u64::from(figure))
    }

    fn close(all: u64, total: u32, cost: u32) -> u64 {
        u64::from(cost).saturating_add(quotient(all, total))
    }
}

/// The cost and the average, rounded up once. The outcomes are gathered as for `Down`.
pub struct Up;

impl Valuing for Up {
    ghost valuation = { up };

    ghost gathered = { sum_seen };

    ghost monotone = { up_monotone };

    fn none() -> u64 {
        Down::none()
    }

    fn gather(so_far: u64, figure: u32, weight: u32) -> u64 {
        Down::gather(so_far, figure, weight)
    }

    fn close(all: u64, total: u32, cost: u32) -> u64 {
        let rest = u64::from(total.saturating_sub(1));
        u64::from(cost).saturating_add(quotient(all.saturating_add(rest), total))
    }
}
