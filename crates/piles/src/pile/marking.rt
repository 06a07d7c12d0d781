//! The work on the marks, by one loop over the arcs each.
ghost use Rattle.std.specs.Prelude.{◌≡◌, ℕ, ◌<◌, ◌≤◌, Bool, false, ◌&&◌, length, ◌==◌, nat_lt, slice_index, slice_index_or};
ghost use Rattle.terms.specs.Routes.{in_set};
ghost use Rattle.plans.specs.Cases.{any};
ghost use Rattle.piles.specs.Heights.{on_side, sided, cut_mark, lift_mark, keep_mark};

use crate::pile::{Arcs, Marks, Side, Split};
use terms::arc::Arc;

impl Split {
    /// Whether an arc is of the place and has a route on a side.
    fn takes(self, side: Side, arc: Arc) -> bool
        ensures { result ≡ (arc.place == self.place && on_side side (in_set self.routes.bits arc.route)) }
    {
        let inside = self.routes.contains(u64::from(arc.route));
        let wanted = match side {
            Side::Inside => inside,
            Side::Outside => !inside,
        };
        arc.place == self.place && wanted
    }
}

impl Marks {
    /// No arc has left.
    pub fn blank() -> Marks
        ensures { (a : ℕ) → slice_index result.at a ≡ 0 }
    {
        Marks { at: [0; 1024] }
    }

    /// Whether an arc of the working case is of the place of a split and has a route on a side.
    pub fn any_on_side(&self, arcs: Arcs, split: Split, side: Side) -> bool
        ensures { result ≡ any (λ a. sided arcs.entry.all.now split.place split.routes.bits side a (slice_index self.now.at a)) (length arcs.entry.all.now) }
    {
        self.at
            .iter()
            .zip(arcs.all)
            .any(|(mark, arc)| *mark == 0 && split.takes(side, *arc))
    }

    /// Gives a height to each arc of the working case that is of the place of a split and has a route on a side.
    pub fn cut(&mut self, arcs: Arcs, split: Split, side: Side, height: u16)
        ensures { (a : ℕ) → slice_index self.new.at a ≡ cut_mark arcs.entry.all.now split.place split.routes.bits side height a (slice_index self.old.at a) }
    {
        // By number, as in `keep`: after a loop over `iter_mut().zip(..)` a proof knows no mark.
        for (i, arc) in arcs.all.iter().enumerate() {
            if self.at[i] == 0 && split.takes(side, *arc) {
                self.at[i] = height;
            }
        }
    }

    /// Takes the marks of one height away.
    pub fn lift(&mut self, height: u16)
        ensures { (a : ℕ) → slice_index self.new.at a ≡ lift_mark height (slice_index self.old.at a) }
    {
        for mark in &mut self.at {
            if *mark == height {
                *mark = 0;
            }
        }
    }

    /// Gives a height to each of the first `count` arcs that stands in the working case and is not kept. A number says which arcs
    /// there are: the arcs themselves would ask more of callers.
    pub fn keep(&mut self, count: usize, keeps: &[bool], height: u16)
        requires few { count ≤ 1024 }
        requires told { count ≤ length keeps.now }
        ensures { (a : ℕ) → slice_index self.new.at a ≡ keep_mark count keeps.now height a (slice_index self.old.at a) }
    {
        for (i, keep) in keeps[..count].iter().enumerate() {
            if self.at[i] == 0 && !*keep {
                self.at[i] = height;
            }
        }
    }

    /// Which of the first `count` arcs stand in the working case.
    pub fn standing(&self, count: usize) -> [bool; 1024]
        requires { count ≤ 1024 }
        ensures long { length result ≡ 1024 }
        ensures each { (a : ℕ) → slice_index_or result a false ≡ (nat_lt a count && slice_index self.now.at a == 0) }
    {
        // An array, as long as any list of arcs: memory is fixed. By number, since it is written where the marks are read.
        let mut out = [false; 1024];
        for (i, mark) in self.at[..count].iter().enumerate() {
            out[i] = *mark == 0;
        }
        out
    }
}
