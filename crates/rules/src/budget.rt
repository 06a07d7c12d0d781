//! The bank that bounds what a plan adds up to in a table.
ghost use Rattle.std.specs.Prelude.{◌≡◌, ◌≤◌, pos, slice_index_or};
ghost use Rattle.rules.specs.Makes.{budget_rules, budget_weight, clipped};
ghost use Rattle.rules.specs.Ranges.{budget_range};

use crate::bank::{Bank, on_grid};
use terms::rule::{Head, Sense};

/// One at most rule. A route weighs at a place what entry 64 × (place − 1) + route of the table says, and 0 past its end;
/// an entry or a limit beyond its range counts as the nearest bound.
#[derive(Clone, Copy, Drop)]
pub struct Budget<'a> {
    limit: i64,
    table: &'a [i64],
}

impl<'a> Budget<'a> {
    /// The bank of a limit and a table.
    pub fn new(limit: i64, table: &'a [i64]) -> Budget<'a>
        ensures limit { result.limit ≡ limit }
        ensures table { result.table.now ≡ table.now }
    {
        Budget { limit, table }
    }
}

// A number, or the nearest of -most and most.
fn bounded(number: i64, most: u32) -> i64
    ensures { result ≡ clipped most number }
{
    let most = i64::from(most);
    number.clamp(-most, most)
}

// An entry of the table, and 0 past its end.
fn entry(table: &[i64], at: usize) -> i64
    ensures { result ≡ slice_index_or table.now at (pos 0) }
{
    table.get(at).copied().unwrap_or(0)
}

// What a route weighs at a place.
fn weighs(table: &[i64], place: u64, route: u64) -> i64
    requires low { 1 ≤ place }
    requires high { place ≤ 32 }
    requires route { route ≤ 63 }
    ensures { result ≡ budget_weight table.now place route }
{
    // There is no `From` of `u64` for `usize`.
    bounded(entry(table, (64 * (place - 1) + route) as usize), 10_000)
}

impl<'a> Bank for Budget<'a> {
    ghost rules = { λ s. budget_rules s.limit s.table.now };

    ghost within = { λ s. budget_range s.limit s.table.now };

    fn count(&self) -> usize {
        1
    }

    fn head(&self, rule: usize) -> Option<Head> {
        (rule < self.count()).then_some(Head {
            sense: Sense::AtMost,
            limit: bounded(self.limit, 1_000_000),
        })
    }

    fn weight(&self, rule: usize, place: u64, route: u64) -> Option<i64> {
        // The same test stands in each make of bank: a bank written elsewhere has it from no one either.
        let asked = rule < self.count() && on_grid(place, route);
        asked.then(|| weighs(self.table, place, route))
    }
}
