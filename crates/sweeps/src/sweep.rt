//! The sweep over the levels of a chart, one for every kind of tally and for both directions.
ghost use Rattle.std.specs.Prelude.{◌≡◌, ◌+◌, ◌<◌, length, slice_index_or, unsigned_abs};
ghost use Rattle.charts.specs.Drafts.{places_of};
ghost use Rattle.tallies.specs.Laws.{wide};
ghost use Rattle.ways.specs.Ways.{relaxed};
ghost use Rattle.sweeps.specs.Tables.{FilledTo, ForwardTable, BackwardTable};

use super::priced::Priced;
use tallies::heading::{Backward, Heading, Onward};
use tallies::tally::Tally;

/// Extends the amount at entry `from` by the price, and joins that to entry `to`.
fn relax<T: Tally>(from: usize, to: usize, price: i64, out: &mut [T::Amount])
    requires from_within { from < length out.old }
    requires to_within { to < length out.old }
    requires amount_small { T.Tally.size (slice_index_or out.old from T.Tally.nothing) < wide }
    requires price_small { unsigned_abs price < wide }
    ensures { out.new ≡ relaxed T.Tally out.old from to price }
{
    let old = out[from];
    let longer = T::extend(old, price);
    out[to] = T::join(out[to], longer);
}

impl Priced<'_> {
    /// One step of a sweep, over the standing arcs of one place.
    fn cross<T: Tally, H: Heading>(&self, step: usize, out: &mut [T::Amount])
        requires long { length out.old ≡ 1056 }
        requires more { step < places_of self.now.chart.now }
        requires filled { FilledTo T.Tally self.now H.Heading step out.old }
        ensures { FilledTo T.Tally self.now H.Heading (step + 1) out.new }
    {
        let places = usize::from(self.chart.places());
        let place = H::place_at(places, step);
        let from = 32 * H::row_at(places, step);
        let to = 32 * H::row_at(places, step + 1);
        // By index: a zip of arcs, marks and prices is no plainer, since its proof speaks of what three iterators have left.
        for (i, arc) in self.chart.arcs().iter().enumerate() {
            if self.standing[i] && usize::from(arc.place) == place {
                relax::<T>(
                    from + usize::from(H::near_end(*arc)),
                    to + usize::from(H::far_end(*arc)),
                    self.prices[i],
                    out,
                );
            }
        }
    }

    /// A whole sweep: writes into the table, for each number of steps and each node, the joining over all ways.
    fn sweep<T: Tally, H: Heading>(&self, out: &mut [T::Amount])
        requires { length out.old ≡ 1056 }
        ensures { FilledTo T.Tally self.now H.Heading (places_of self.now.chart.now) out.new }
    {
        let places = usize::from(self.chart.places());
        out.fill_with(|| T::no_plan());
        out[32 * H::row_at(places, 0)] = T::empty_plan();
        // Numbers of steps: there is no list of them.
        for step in 0..places {
            self.cross::<T, H>(step, out);
        }
    }

    // The two directions have a method each, since their contracts speak of other plans. The table is lent by the caller, who
    // says how long it is.

    /// Writes, for each node, the joining over all standing partial plans from the root to it.
    pub fn forward<T: Tally>(&self, out: &mut [T::Amount])
        requires { length out.old ≡ 1056 }
        ensures { ForwardTable T.Tally self.now out.new }
    {
        self.sweep::<T, Onward>(out);
    }

    /// Writes, for each node, the joining over all standing partial plans from it to the end.
    pub fn backward<T: Tally>(&self, out: &mut [T::Amount])
        requires { length out.old ≡ 1056 }
        ensures { BackwardTable T.Tally self.now out.new }
    {
        self.sweep::<T, Backward>(out);
    }
}
