//! The bank that has routes tested one before another.
ghost use Rattle.std.specs.Prelude.{◌≡◌, ◌≤◌};
ghost use Rattle.rules.specs.Makes.{order_rules, order_weight};
ghost use Rattle.rules.specs.Ranges.{order_range};

use crate::bank::{Bank, capped, on_grid};
use terms::rule::{Head, Sense};

/// Two routes, of which `earlier` is to be tested before `later`. They may be any numbers.
#[derive(Clone, Copy, Default, Drop)]
pub struct Precedence {
    pub earlier: u8,
    pub later: u8,
}

/// An at most rule with limit -1 for each pair of routes: the earlier weighs the place's number, the later minus that number.
#[derive(Clone, Copy, Drop)]
pub struct Order<'a> {
    pairs: &'a [Precedence],
}

impl<'a> Order<'a> {
    /// The bank of a list of pairs.
    pub fn new(pairs: &'a [Precedence]) -> Order<'a>
        ensures { result.pairs.now ≡ pairs.now }
    {
        Order { pairs }
    }
}

// What a route weighs in the rule of a pair.
fn weighs(pair: Precedence, place: u64, route: u64) -> i64
    requires { place ≤ 32 }
    ensures { result ≡ order_weight pair place route }
{
    let earlier = route == u64::from(pair.earlier);
    let later = route == u64::from(pair.later);
    // There is no `From` of `u64` for `i64`.
    match (earlier, later) {
        (true, false) => place as i64,
        (false, true) => -(place as i64),
        _ => 0,
    }
}

impl<'a> Bank for Order<'a> {
    ghost rules = { λ s. order_rules s.pairs.now };

    ghost within = { λ s. order_range s.pairs.now };

    fn count(&self) -> usize {
        capped(self.pairs.len())
    }

    fn head(&self, rule: usize) -> Option<Head> {
        (rule < self.count()).then_some(Head {
            sense: Sense::AtMost,
            limit: -1,
        })
    }

    fn weight(&self, rule: usize, place: u64, route: u64) -> Option<i64> {
        let pair = *self.pairs.get(rule)?;
        let asked = rule < self.count() && on_grid(place, route);
        asked.then(|| weighs(pair, place, route))
    }
}
