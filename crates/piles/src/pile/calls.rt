//! The calls on a pile.
ghost use Rattle.std.specs.Prelude.{◌≡◌, ℕ, ◌<◌, ◌≤◌, Bool, false, ◌&&◌, List, [], ◌∷◌, length, slice_index_or};
ghost use Rattle.terms.specs.declared.arc.Arc.{Arc as GhostArc};
ghost use Rattle.plans.specs.Cases.{every};
ghost use Rattle.judging.specs.Cases.{inside, outside, top, under};
ghost use Rattle.judging.specs.Calls.{one_sided};
ghost use Rattle.piles.specs.Views.{pile_of};

use crate::pile::{Arcs, Marks, Pile, Side, Split, SplitTable};
use terms::routes::RouteSet;

/// A table for one case.
fn one_case() -> SplitTable
    ensures { result.count ≡ 1 }
{
    let unused = Split {
        place: 0,
        routes: RouteSet::none(),
    };
    SplitTable {
        at: [unused; 1024],
        count: 1,
    }
}

// That a case is open is a clause: a struct that kept it would have to be made anew after each change. A height is at most 1,024, so
// the casts lose nothing. An array of marks is as long as any list of arcs: memory is fixed.
impl Pile {
    /// One case with every arc.
    pub fn new() -> Pile
        ensures { (arcs : List GhostArc) → pile_of arcs result ≡ every arcs ∷ [] }
    {
        let marks = Marks::blank();
        let table = one_case();
        Pile { marks, table }
    }

    /// How many cases are open.
    pub fn height(&self) -> usize
        ensures { (arcs : List GhostArc) → result ≡ length (pile_of arcs self.now) }
    {
        self.table.count
    }

    /// Which arcs stand in the working case.
    pub fn working(&self, arcs: Arcs) -> [bool; 1024]
        requires { 0 < length (pile_of arcs.all.now self.now) }
        ensures long { length result ≡ 1024 }
        ensures each { (a : ℕ) → slice_index_or result a false ≡ top (pile_of arcs.entry.all.now self.now) a }
    {
        self.marks.standing(arcs.all.len())
    }

    /// Leaves in the working case only the arcs that are kept.
    pub fn keep(&mut self, arcs: Arcs, keeps: &[bool])
        requires told { length arcs.all.now ≤ length keeps.now }
        requires some { 0 < length (pile_of arcs.all.now self.old) }
        ensures { pile_of arcs.entry.all.now self.new ≡ (λ a. top (pile_of arcs.entry.all.now self.old) a && slice_index_or keeps.now a false) ∷ under (pile_of arcs.entry.all.now self.old) }
    {
        let height = self.table.count as u16;
        self.marks.keep(arcs.all.len(), keeps, height);
    }

    /// Whether a split of the working case would leave one side without an arc at the place.
    pub fn is_one_sided(&self, arcs: Arcs, split: Split) -> bool
        requires { 0 < length (pile_of arcs.all.now self.now) }
        ensures { result ≡ one_sided arcs.entry.all.now split.place split.routes.bits (top (pile_of arcs.entry.all.now self.now)) }
    {
        let within = self.marks.any_on_side(arcs, split, Side::Inside);
        let beyond = self.marks.any_on_side(arcs, split, Side::Outside);
        !(within & beyond)
    }

    /// Splits the working case: it keeps, at a place, only the routes outside a set, and a copy with only those
    /// inside goes on top.
    pub fn split(&mut self, arcs: Arcs, split: Split)
        requires some { 0 < length (pile_of arcs.all.now self.old) }
        requires room { length (pile_of arcs.all.now self.old) < 1024 }
        ensures { pile_of arcs.entry.all.now self.new ≡ inside arcs.entry.all.now split.place split.routes.bits (top (pile_of arcs.entry.all.now self.old)) ∷ outside arcs.entry.all.now split.place split.routes.bits (top (pile_of arcs.entry.all.now self.old)) ∷ under (pile_of arcs.entry.all.now self.old) }
    {
        let height = self.table.count;
        self.table.at[height - 1] = split;
        self.marks
            .cut(arcs, split, Side::Outside, height as u16 + 1);
        self.table.count = height + 1;
    }

    /// Removes the working case.
    pub fn close(&mut self, arcs: Arcs)
        requires { 0 < length (pile_of arcs.all.now self.old) }
        ensures { pile_of arcs.entry.all.now self.new ≡ under (pile_of arcs.entry.all.now self.old) }
    {
        let height = self.table.count;
        self.marks.lift(height as u16);
        self.table.count = height - 1;
        if height == 1 {
            return;
        }
        let split = self.table.at[height - 2];
        self.marks.cut(arcs, split, Side::Inside, height as u16 - 1);
    }
}
