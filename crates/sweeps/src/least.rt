//! The first plan with the least sum of prices, the first plan, and the least minutes of a chart.
ghost use Rattle.std.specs.Prelude.{◌≡◌, ℕ, ◌<◌, ◌≤◌, Bool, length, pos, slice_index_or};
ghost use Rattle.plans.specs.Arcs.{arc_at};
ghost use Rattle.plans.specs.Plans.{cost};
ghost use Rattle.plans.specs.Cases.{standing as standing_plans};
ghost use Rattle.plans.specs.Firsts.{foremost, amount_in, written, is_there};
ghost use Rattle.charts.specs.Drafts.{places_of, arcs_of};
ghost use Rattle.ways.specs.Amounts.{marked, price_at};
ghost use Rattle.ways.specs.Minutes.{cheapest_plan, on_minutes};
ghost use Rattle.ways.specs.Sums.{price_sum};
ghost use Rattle.sweeps.specs.Tables.{over_all, TracedInto, least_of};

use super::priced::Priced;
use charts::chart::Chart;
use tallies::kinds::{Least, Reach};
use tallies::tally::Choosing;
use terms::arc::Arc;
use terms::refusal::Refusal;

// Tables and buffers are lent, since nothing here allocates: so their lengths are clauses.
impl Priced<'_> {
    /// The joining over all standing plans, for which the table is lent; writes the plan that attains it.
    fn attain<T: Choosing>(&self, table: &mut [T::Amount], plan: &mut [usize]) -> T::Amount
        requires long { length table.old ≡ 1056 }
        requires room { places_of self.now.chart.now ≤ length plan.old }
        ensures amount { result ≡ over_all T.Tally self.now }
        ensures plan { (found : Bool) × TracedInto T.Tally self.now plan.old plan.new found }
    {
        self.backward::<T>(table);
        self.trace::<T>(table, plan);
        table[0]
    }

    /// The least sum of prices over the standing plans, if any stands; writes the first plan with that sum into the
    /// first places of the buffer.
    pub fn least_plan(&self, plan: &mut [usize]) -> Option<i64>
        requires { places_of self.now.chart.now ≤ length plan.old }
        ensures amount { result ≡ amount_in (price_sum (price_at self.now.prices.now)) (least_of self.now) }
        ensures plan { plan.new ≡ written (least_of self.now) plan.old }
    {
        self.attain::<Least>(&mut [None; 1056], plan)
    }
}

/// Whether a plan stands; writes the first that does into the first places of the buffer, which is lent, since nothing here
/// allocates. That each arc has a mark is a clause: an array of 1,024 marks as the type would ask more of callers.
pub fn first_plan(chart: &Chart, standing: &[bool], plan: &mut [usize]) -> bool
    requires marks { length (arcs_of chart.now) ≤ length standing.now }
    requires room { places_of chart.now ≤ length plan.old }
    ensures answer { result ≡ is_there (foremost (standing_plans (places_of chart.now) (arcs_of chart.now) (marked standing.now))) }
    ensures plan { plan.new ≡ written (foremost (standing_plans (places_of chart.now) (arcs_of chart.now) (marked standing.now))) plan.old }
{
    let priced = Priced {
        chart,
        standing,
        prices: &[0; 1024],
    };
    priced.attain::<Reach>(&mut [false; 1056], plan)
}

/// Each arc's minutes as its price.
fn by_minutes(chart: &Chart) -> [i64; 1024]
    ensures long { length result ≡ 1024 }
    ensures each { (i : ℕ) → i < length (arcs_of chart.now) → slice_index_or result i (pos 0) ≡ pos (arc_at (arcs_of chart.now) i).minutes }
    ensures rest { (i : ℕ) → length (arcs_of chart.now) ≤ i → slice_index_or result i (pos 0) ≡ pos 0 }
{
    let arcs = chart.arcs();
    // An array, as long as any list of arcs: memory is fixed. By number: prices stand beside the arcs of a sealed chart.
    let mut prices = [0; 1024];
    for (i, arc) in arcs.iter().enumerate() {
        prices[i] = i64::from(arc.minutes);
    }
    prices
}

/// The least minutes of a chart's plans, if it has any; writes the first plan with that cost. The buffer is lent, so its room is a
/// clause.
fn cheapest_plan(chart: &Chart, plan: &mut [usize]) -> Option<i64>
    requires { places_of chart.now ≤ length plan.old }
    ensures amount { result ≡ amount_in (λ p. pos (cost (arcs_of chart.now) p)) (cheapest_plan (places_of chart.now) (arcs_of chart.now)) }
    ensures plan { plan.new ≡ written (cheapest_plan (places_of chart.now) (arcs_of chart.now)) plan.old }
{
    let prices = by_minutes(chart);
    let priced = Priced {
        chart,
        standing: &[true; 1024],
        prices: &prices,
    };
    priced.least_plan(plan)
}

/// The least minutes of a chart's plans, if it has any; writes the first plan with that cost into the first places
/// of the buffer. A buffer with fewer places than the chart is refused.
pub fn least_minutes(chart: &Chart, plan: &mut [usize]) -> Result<Option<u64>, Refusal>
    ensures reply { result ≡ (on_minutes (places_of chart.now) (arcs_of chart.now) plan.old).answer }
    ensures left { plan.new ≡ (on_minutes (places_of chart.now) (arcs_of chart.now) plan.old).left }
{
    if plan.len() < usize::from(chart.places()) {
        return Err(Refusal::ShortBuffer);
    }
    Ok(cheapest_plan(chart, plan).map(|minutes| minutes.unsigned_abs()))
}
