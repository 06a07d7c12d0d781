//! The two directions of a sweep: from the root to the end, and from the end to the root.
ghost use Rattle.std.specs.Prelude.{◌≡◌, ℕ, suc, ◌-◌, ◌<◌, ◌≤◌};
ghost use Rattle.terms.specs.declared.arc.Arc.{Arc as GhostArc};
ghost use Rattle.tallies.specs.Headings.{HeadingLaws};
ghost use Rattle.std.proofs.Common.{rules};

use terms::arc::Arc;

/// A direction. After `step` steps a sweep over a chart of `places` places is at one row of nodes, and the next
/// step takes it over the arcs of one place, each from its near end to its far end.
pub trait Heading {
    ghost near: { GhostArc → ℕ };

    ghost far: { GhostArc → ℕ };

    ghost place: { ℕ → ℕ → ℕ };

    ghost row: { ℕ → ℕ → ℕ };

    /// The node at which the sweep finds an arc.
    fn near_end(arc: Arc) -> u8
        ensures { result ≡ near arc };

    /// The node to which the arc takes it.
    fn far_end(arc: Arc) -> u8
        ensures { result ≡ far arc };

    /// The place whose arcs the next step takes.
    fn place_at(places: usize, step: usize) -> usize
        requires { (step < places) × (places ≤ 32) }
        ensures { result ≡ place places step };

    /// The row at which the sweep is: 0 for level 1, up to `places` for the last level.
    fn row_at(places: usize, step: usize) -> usize
        requires { (step ≤ places) × (places ≤ 32) }
        ensures { result ≡ row places step };

    // What every direction owes.
    ghost lawful: { HeadingLaws near far place row };
}

/// From the root to the end.
pub struct Onward;

impl Heading for Onward {
    ghost near = { λ x. x.start };

    ghost far = { λ x. x.end };

    ghost place = { λ n k. suc k };

    ghost row = { λ n k. k };

    ghost lawful = { Prim.search rules };

    fn near_end(arc: Arc) -> u8 {
        arc.start
    }

    fn far_end(arc: Arc) -> u8 {
        arc.end
    }

    fn place_at(_places: usize, step: usize) -> usize {
        step + 1
    }

    fn row_at(_places: usize, step: usize) -> usize {
        step
    }
}

/// From the end to the root.
pub struct Backward;

impl Heading for Backward {
    ghost near = { λ x. x.end };

    ghost far = { λ x. x.start };

    ghost place = { λ n k. n - k };

    ghost row = { λ n k. n - k };

    ghost lawful = { Prim.search rules };

    fn near_end(arc: Arc) -> u8 {
        arc.end
    }

    fn far_end(arc: Arc) -> u8 {
        arc.start
    }

    fn place_at(places: usize, step: usize) -> usize {
        places - step
    }

    fn row_at(places: usize, step: usize) -> usize {
        places - step
    }
}
