//! The trace of a plan along the table of a backward sweep.
ghost use Rattle.std.specs.Prelude.{◌≡◌, ◌≤◌, length};
ghost use Rattle.plans.specs.Plans.{Node};
ghost use Rattle.charts.specs.Drafts.{places_of};
ghost use Rattle.sweeps.specs.Tables.{BackwardTable, PickedAt, TracedInto};

use super::priced::Priced;
use tallies::tally::Choosing;

// Tables and buffers are lent, since nothing here allocates: so their lengths are clauses. An entry is 32 for each row and the node: a
// sum of one line, as in the sweep, which takes the row's part out of its loop.
impl Priced<'_> {
    /// The smallest standing arc from node `node` of level `place` that attains the node's amount.
    fn pick<T: Choosing>(&self, table: &[T::Amount], place: usize, node: usize) -> Option<usize>
        requires filled { BackwardTable T.Tally self.now table.now }
        requires long { length table.now ≡ 1056 }
        requires there { Node (places_of self.now.chart.now) place node }
        requires before_end { place ≤ places_of self.now.chart.now }
        ensures { PickedAt T.Tally self.now place node result }
    {
        let whole = table[32 * (place - 1) + node];
        let arcs = self.chart.arcs();
        // By number: marks and prices stand beside the arcs. No `position`: the amounts fit only because the arc is one of the chart, which a closure over any arc does not know.
        for (i, arc) in arcs.iter().enumerate() {
            if self.standing[i]
                && usize::from(arc.place) == place
                && usize::from(arc.start) == node
            {
                let part = T::extend(table[32 * place + usize::from(arc.end)], self.prices[i]);
                if T::first(part, whole) {
                    return Some(i);
                }
            }
        }
        None
    }

    /// Traces a plan along the table that a backward sweep has filled: writes into the first places of the buffer
    /// the plan that takes, at each node from the root on, the smallest arc that attains the node's amount, and
    /// answers whether there is one. Buffer and table are lent, since nothing here allocates.
    pub fn trace<T: Choosing>(&self, table: &[T::Amount], plan: &mut [usize]) -> bool
        requires filled { BackwardTable T.Tally self.now table.now }
        requires long { length table.now ≡ 1056 }
        requires room { places_of self.now.chart.now ≤ length plan.old }
        ensures { TracedInto T.Tally self.now plan.old plan.new result }
    {
        if T::first(T::no_plan(), table[0]) {
            return false;
        }
        let mut node = 0;
        // By number: what counts the entries of the buffer counts the places of the chart too.
        for j in 0..usize::from(self.chart.places()) {
            let Some(i) = self.pick::<T>(table, j + 1, node) else {
                return false;
            };
            plan[j] = i;
            node = usize::from(self.chart.arcs()[i].end);
        }
        true
    }
}
