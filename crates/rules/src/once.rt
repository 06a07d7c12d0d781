//! The bank that has each route of a set tested exactly once.
ghost use Rattle.std.specs.Prelude.{◌≡◌, pos, if◌then◌else◌};
ghost use Rattle.rules.specs.Makes.{once_rules, is_nth};
ghost use Rattle.rules.specs.Ranges.{once_range};

use crate::bank::{Bank, on_grid};
use terms::routes::RouteSet;
use terms::rule::{Head, Sense};

/// An exactly rule with limit 1 for each route of a set, in rising order: that route weighs 1 at every place, any other 0.
#[derive(Clone, Copy, Drop)]
pub struct Once {
    routes: RouteSet,
}

impl Once {
    /// The bank of a set of routes.
    pub fn new(routes: RouteSet) -> Once
        ensures { result.routes ≡ routes }
    {
        Once { routes }
    }
}

// What a route weighs in a rule: the rule of a route of the set is the number of routes below it.
fn weighs(routes: RouteSet, rule: usize, route: u64) -> i64
    ensures { result ≡ (if is_nth routes.bits rule route then pos 1 else pos 0) }
{
    i64::from(routes.contains(route) && routes.rank(route) == rule)
}

impl Bank for Once {
    ghost rules = { λ s. once_rules s.routes.bits };

    ghost within = { λ s. once_range s.routes.bits };

    fn count(&self) -> usize {
        self.routes.len()
    }

    fn head(&self, rule: usize) -> Option<Head> {
        (rule < self.count()).then_some(Head {
            sense: Sense::Exactly,
            limit: 1,
        })
    }

    fn weight(&self, rule: usize, place: u64, route: u64) -> Option<i64> {
        let asked = rule < self.count() && on_grid(place, route);
        asked.then(|| weighs(self.routes, rule, route))
    }
}
