//! What a sealed chart answers.
ghost use Rattle.std.specs.Prelude.{◌≡◌, length};
ghost use Rattle.plans.specs.Arcs.{Sealed};
ghost use Rattle.charts.specs.Drafts.{places_of, arcs_of, arc_numbered};

use crate::chart::Chart;
use terms::arc::Arc;

impl Chart {
    /// The number of places.
    pub fn places(&self) -> u8
        ensures value { result ≡ places_of self.now }
        ensures sealed { Sealed (places_of self.now) (arcs_of self.now) }
    {
        self.places
    }

    /// The number of arcs.
    pub fn count(&self) -> usize
        ensures { result ≡ length (arcs_of self.now) }
    {
        self.table.count
    }

    /// The arcs, in the order of their numbers.
    pub fn arcs(&self) -> &[Arc]
        ensures { result.now ≡ arcs_of self.now }
    {
        &self.table.at[..self.table.count]
    }

    /// The arc of a number, if there is one.
    pub fn arc(&self, number: usize) -> Option<Arc>
        ensures { result ≡ arc_numbered (arcs_of self.now) number }
    {
        self.arcs().get(number).copied()
    }
}
