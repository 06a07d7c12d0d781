//! The bank that keeps a route from being tested too early.
ghost use Rattle.std.specs.Prelude.{◌≡◌};
ghost use Rattle.fifth_bank.specs.NotBefores.{not_before_rules, not_before_weight, not_before_range};

use rules::bank::{Bank, on_grid};
use terms::rule::{Head, Sense};

/// One at most rule with limit 0: the route weighs 1 at each place before `place`, and any other test 0.
#[derive(Clone, Copy, Drop)]
pub struct NotBefore {
    pub route: u8,
    pub place: u8,
}

// What a route weighs at a place.
fn weighs(bank: NotBefore, place: u64, route: u64) -> i64
    ensures { result ≡ not_before_weight bank.route bank.place place route }
{
    i64::from(route == u64::from(bank.route) && place < u64::from(bank.place))
}

impl Bank for NotBefore {
    ghost rules = { λ s. not_before_rules s.route s.place };

    ghost within = { λ s. not_before_range s.route s.place };

    fn count(&self) -> usize {
        1
    }

    fn head(&self, rule: usize) -> Option<Head> {
        (rule < self.count()).then_some(Head {
            sense: Sense::AtMost,
            limit: 0,
        })
    }

    fn weight(&self, rule: usize, place: u64, route: u64) -> Option<i64> {
        let asked = rule < self.count() && on_grid(place, route);
        asked.then(|| weighs(*self, place, route))
    }
}
