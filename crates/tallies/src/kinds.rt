//! The kinds of tally: least, the smaller amount, and reach, whether there is a plan.
ghost use Rattle.std.specs.Prelude.{◌≡◌, ℕ, true, false, ◌||◌, ℤ, pos, Some, None};
ghost use Rattle.tallies.specs.Kinds.{least_join, least_extend, least_size};
ghost use Rattle.tallies.specs.Sorts.{least_lawful, reach_lawful, least_chooses, reach_chooses};

use super::tally::{Choosing, Tally};

/// Whether there is a plan: yes or no.
pub struct Reach;

impl Tally for Reach {
    type Amount = bool;

    ghost nothing = { false };

    ghost start = { true };

    ghost joins = { λ a b. a || b };

    ghost extends = { λ a _. a };

    ghost size = { λ _. 0 };

    ghost lawful = { reach_lawful };

    fn no_plan() -> bool {
        false
    }

    fn empty_plan() -> bool {
        true
    }

    fn join(a: bool, b: bool) -> bool {
        a || b
    }

    fn extend(a: bool, _price: i64) -> bool {
        a
    }
}

impl Choosing for Reach {
    ghost chooses = { reach_chooses };

    fn first(a: bool, b: bool) -> bool {
        a || !b
    }
}

/// The smaller amount; "no plan" is no number.
pub struct Least;

impl Tally for Least {
    type Amount = Option<i64>;

    ghost nothing = { None };

    ghost start = { Some (pos 0) };

    ghost joins = { least_join };

    ghost extends = { least_extend };

    ghost size = { least_size };

    ghost lawful = { least_lawful };

    fn no_plan() -> Option<i64> {
        None
    }

    fn empty_plan() -> Option<i64> {
        Some(0)
    }

    fn join(a: Option<i64>, b: Option<i64>) -> Option<i64> {
        match (a, b) {
            (Some(x), Some(y)) => Some(x.min(y)),
            _ => a.or(b),
        }
    }

    fn extend(a: Option<i64>, price: i64) -> Option<i64> {
        a.map(|x| x + price)
    }
}

impl Choosing for Least {
    ghost chooses = { least_chooses };

    fn first(a: Option<i64>, b: Option<i64>) -> bool {
        match (a, b) {
            (_, None) => true,
            (None, Some(_)) => false,
            (Some(x), Some(y)) => x <= y,
        }
    }
}
