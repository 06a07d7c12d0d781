//! The bank that joins two banks.
ghost use Rattle.std.specs.Prelude.{◌≡◌, ◌++◌};
ghost use Rattle.rules.specs.Makes.{side_of};
ghost use Rattle.rules.specs.Ranges.{join_range};

use crate::bank::{Bank, capped};
use terms::rule::Head;

/// The rules of `left`, then those of `right`.
#[derive(Drop)]
pub struct Pair<L, R> {
    left: L,
    right: R,
}

impl<L, R> Pair<L, R> {
    /// The bank of two banks.
    pub fn new(left: L, right: R) -> Pair<L, R>
        ensures left { result.left ≡ left }
        ensures right { result.right ≡ right }
    {
        Pair { left, right }
    }
}

// The bank of the two that has a rule, and the rule's number there.
#[derive(Clone, Copy)]
enum Side {
    Left(usize),
    Right(usize),
}

// The side of a rule, where the left bank answers the count `count`.
fn find(rule: usize, count: usize) -> Option<Side>
    ensures { result ≡ side_of rule count }
{
    if rule < count {
        Some(Side::Left(rule))
    } else if rule > 128 {
        None
    } else {
        Some(Side::Right(rule - count))
    }
}

impl<L: Bank, R: Bank> Bank for Pair<L, R> {
    ghost rules = { λ s. L.Bank.rules s.left ++ R.Bank.rules s.right };

    ghost within = { λ s. join_range (L.Bank.rules s.left) (R.Bank.rules s.right) (L.Bank.within s.left) (R.Bank.within s.right) };

    fn count(&self) -> usize {
        capped(self.left.count() + self.right.count())
    }

    fn head(&self, rule: usize) -> Option<Head> {
        match find(rule, self.left.count())? {
            Side::Left(rule) => self.left.head(rule),
            Side::Right(rule) => self.right.head(rule),
        }
    }

    fn weight(&self, rule: usize, place: u64, route: u64) -> Option<i64> {
        match find(rule, self.left.count())? {
            Side::Left(rule) => self.left.weight(rule, place, route),
            Side::Right(rule) => self.right.weight(rule, place, route),
        }
    }
}
