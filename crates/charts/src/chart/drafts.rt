//! The calls on a draft.
ghost use Rattle.std.specs.Prelude.{◌≡◌, ◌<◌, not, ◌&&◌, [], ◌∷◌, ◌++◌, length, nat_le};
ghost use Rattle.plans.specs.Arcs.{ArcInRange};
ghost use Rattle.charts.specs.Drafts.{draft_of, places_of, arcs_of, new_draft, on_places, off_nodes, arc_rows, as_arc, on_arc};

use crate::chart::{ArcTable, Chart, Draft};
use terms::arc::{Arc, NewArc};
use terms::refusal::Refusal;

/// A table of 1,024 entries, none in use.
fn empty_table() -> ArcTable
    ensures { result.count ≡ 0 }
{
    let none = Arc {
        place: 0,
        start: 0,
        end: 0,
        route: 0,
        minutes: 0,
    };
    ArcTable {
        at: [none; 1024],
        count: 0,
    }
}

/// Whether a number lies outside 1 to `most`.
fn outside(n: u64, most: u64) -> bool
    ensures { result ≡ not (nat_le 1 n && nat_le n most) }
{
    n < 1 || n > most
}

/// Whether an arc has a node above 31, or one that is not 0 at the root or the end.
fn off_nodes(places: u8, new: NewArc) -> bool
    ensures { result ≡ off_nodes places new }
{
    let above = new.start > 31 || new.end > 31;
    let off_root = new.place == 1 && new.start != 0;
    let off_end = new.place == u64::from(places) && new.end != 0;
    above | (off_root | off_end)
}

impl Chart {
    /// One arc more, behind the others.
    fn push(&mut self, arc: Arc)
        requires room { self.old.table.count < 1024 }
        requires fits { ArcInRange self.old.places arc }
        ensures places { places_of self.new ≡ places_of self.old }
        ensures arcs { arcs_of self.new ≡ arcs_of self.old ++ arc ∷ [] }
    {
        let number = self.table.count;
        self.table.at[number] = arc;
        self.table.count = number + 1;
    }
}

impl Draft {
    /// A draft of one place and no arcs.
    pub fn new() -> Draft
        ensures { draft_of result ≡ new_draft }
    {
        let table = empty_table();
        Draft {
            chart: Chart { places: 1, table },
        }
    }

    /// The number of places.
    pub fn place_count(&self) -> u8
        ensures { result ≡ (draft_of self.now).places }
    {
        self.chart.places
    }

    /// Sets the number of places, 1 to 32, while no arc is drafted. Answers it.
    pub fn places(&mut self, n: u64) -> Result<u64, Refusal>
        ensures reply { result ≡ (on_places (draft_of self.old) n).answer }
        ensures left { draft_of self.new ≡ (on_places (draft_of self.old) n).left }
    {
        if outside(n, 32) {
            return Err(Refusal::PlacesRange);
        }
        if self.chart.table.count > 0 {
            return Err(Refusal::PlacesLate);
        }
        // In range by the row above.
        self.chart.places = n as u8;
        Ok(n)
    }

    /// Drafts one arc more. Answers its number.
    pub fn arc(&mut self, new: NewArc) -> Result<usize, Refusal>
        ensures reply { result ≡ (on_arc (draft_of self.old) new).answer }
        ensures left { draft_of self.new ≡ (on_arc (draft_of self.old) new).left }
    {
        if outside(new.place, u64::from(self.chart.places)) {
            return Err(Refusal::PlaceRange);
        }
        if off_nodes(self.chart.places, new) {
            return Err(Refusal::NodeRange);
        }
        if new.route > 63 {
            return Err(Refusal::RouteRange);
        }
        if new.minutes > 10_000 {
            return Err(Refusal::MinutesRange);
        }
        let number = self.chart.table.count;
        if number >= 1024 {
            return Err(Refusal::ArcsFull);
        }
        // In range by the rows above.
        self.chart.push(Arc {
            place: new.place as u8,
            start: new.start as u8,
            end: new.end as u8,
            route: new.route as u8,
            minutes: new.minutes as u16,
        });
        Ok(number)
    }

    /// Seals the draft, which is used up.
    pub fn seal(self) -> Chart
        ensures places { places_of result ≡ (draft_of self).places }
        ensures arcs { arcs_of result ≡ (draft_of self).arcs }
    {
        let Draft { chart } = self;
        chart
    }
}
