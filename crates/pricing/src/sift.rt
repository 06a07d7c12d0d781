//! Marks that are taken away by a test of what lies before and behind each arc.
ghost use Rattle.std.specs.Prelude.{◌≡◌, ℕ, ◌<◌, ◌≤◌, ℤ, Bool, length, unsigned_abs};
ghost use Rattle.plans.specs.Cases.{Case};
ghost use Rattle.charts.specs.Drafts.{places_of, arcs_of};
ghost use Rattle.tallies.specs.Laws.{wide};
ghost use Rattle.ways.specs.Amounts.{marked, price_at, entry, Sweepable};
ghost use Rattle.through.specs.Keeping.{Tells, Sifted};

use charts::chart::Chart;
use sweeps::priced::Priced;
use tallies::tally::Tally;

/// The entry of a sweep's table for a node of a level.
fn entry(level: usize, node: u8) -> usize
    requires low { 1 ≤ level }
    requires high { level ≤ 33 }
    requires within { node < 32 }
    ensures value { result ≡ entry level node }
    ensures there { result < 1056 }
{
    32 * (level - 1) + usize::from(node)
}

/// Takes away the mark of each arc that fails a test of its price, the amount before it and the amount behind it, and
/// answers how many. So whatever set of arcs the test tells of, its arcs keep their marks and no others do. The two tables
/// are lent to the sweeps: to make arrays of any type of amount here was tried, and that such an array fits in memory did not prove. So their
/// lengths are clauses, and that prices fit is one, since marks are changed here.
pub fn sift<T: Tally, F: Fn(i64, T::Amount, T::Amount) -> bool>(
    chart: &Chart,
    prices: &[i64],
    fronts: &mut [T::Amount],
    backs: &mut [T::Amount],
    stays: F,
    standing: &mut [bool],
) -> usize
    requires fit { Sweepable (arcs_of chart.now) standing.old prices.now }
    requires fronts_long { length fronts.old ≡ 1056 }
    requires backs_long { length backs.old ≡ 1056 }
    requires asked { (x : ℤ) (front back : T.Amount) → unsigned_abs x < wide → T.Tally.size front < wide → T.Tally.size back < wide → F.pre stays x front back }
    ensures { (keep : Case) → Tells T.Tally (places_of chart.now) (arcs_of chart.now) standing.old prices.now (F.post stays) keep → Sifted keep (length (arcs_of chart.now)) standing.old standing.new result }
{
    let priced = Priced {
        chart,
        standing,
        prices,
    };
    priced.forward::<T>(fronts);
    priced.backward::<T>(backs);
    let mut gone = 0usize;
    // Marks and prices by the arc's number: each is an array of its own, since a sealed chart holds neither.
    for (i, arc) in chart.arcs().iter().enumerate() {
        let front = fronts[entry(usize::from(arc.place), arc.start)];
        let back = backs[entry(usize::from(arc.place) + 1, arc.end)];
        let stood = standing[i];
        if stood && !stays(prices[i], front, back) {
            standing[i] = false;
            gone += 1;
        }
    }
    gone
}
