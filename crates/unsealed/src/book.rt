//! The rules that a dossier drafts, and the forms that add to them.
ghost use Rattle.std.specs.Prelude.{◌≡◌, ℕ, List, ℤ};
ghost use Rattle.lines.specs.Cursors.{HoldsNumbers, HoldsTriples};
ghost use Rattle.unsealed.specs.Books.{book_of, new_book, on_once, on_order, on_budget};

use crate::items::{any_place_outside, any_route_outside, route_set, store};
use arrayvec::ArrayVec;
use lines::form::{NumberItems, TripleItems};
use rules::order::Precedence;
use terms::refusal::Refusal;
use terms::routes::RouteSet;

/// The rules of a dossier.
#[derive(Drop)]
pub struct RuleBook {
    pub once: Option<RouteSet>,
    /// The pairs of the orders, in the order in which they came.
    pub pairs: ArrayVec<Precedence, 64>,
    pub limit: Option<i64>,
    /// The weights of the budget, by place and route.
    pub entries: [i64; 2048],
}

impl RuleBook {
    /// No rules.
    pub fn new() -> RuleBook
        ensures { book_of result ≡ new_book }
    {
        RuleBook {
            once: None,
            pairs: ArrayVec::new(),
            limit: None,
            entries: [0; 2048],
        }
    }

    /// The routes to be tested once. Answers how many.
    pub fn once(&mut self, items: NumberItems) -> Result<usize, Refusal>
        ensures reply { (qs : List ℕ) → HoldsNumbers qs items.entry → result ≡ (on_once (book_of self.old) qs).answer }
        ensures left { (qs : List ℕ) → HoldsNumbers qs items.entry → book_of self.new ≡ (on_once (book_of self.old) qs).left }
    {
        if self.once.is_some() {
            return Err(Refusal::NotHere);
        }
        let routes = route_set(items)?;
        self.once = Some(routes);
        Ok(routes.len())
    }

    /// A route to be tested before another. Answers 1, the number of rules.
    pub fn order(&mut self, earlier: u64, later: u64) -> Result<usize, Refusal>
        ensures reply { result ≡ (on_order (book_of self.old) earlier later).answer }
        ensures left { book_of self.new ≡ (on_order (book_of self.old) earlier later).left }
    {
        if self.pairs.is_full() {
            return Err(Refusal::NotHere);
        }
        if earlier > 63 || later > 63 {
            return Err(Refusal::RouteRange);
        }
        // In range by the row above.
        self.pairs.push(Precedence {
            earlier: earlier as u8,
            later: later as u8,
        });
        Ok(1)
    }

    /// The limit and the entries of the budget, on a chart of so many places. Answers 1, the number of rules.
    pub fn budget(&mut self, places: u8, limit: i64, items: TripleItems) -> Result<usize, Refusal>
        ensures reply { (xs : List (ℕ × ℕ × ℤ)) → HoldsTriples xs items.entry → result ≡ (on_budget (book_of self.old) places limit xs).answer }
        ensures left { (xs : List (ℕ × ℕ × ℤ)) → HoldsTriples xs items.entry → book_of self.new ≡ (on_budget (book_of self.old) places limit xs).left }
    {
        if self.limit.is_some() {
            return Err(Refusal::NotHere);
        }
        if any_place_outside(items, places) {
            return Err(Refusal::PlaceRange);
        }
        if any_route_outside(items) {
            return Err(Refusal::RouteRange);
        }
        store(&mut self.entries, items);
        self.limit = Some(limit);
        Ok(1)
    }
}
