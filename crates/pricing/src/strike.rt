//! Which arcs are on standing plans priced below a mark.
ghost use Rattle.std.specs.Prelude.{◌≡◌, ◌*◌, ◌<◌, ◌≤◌, length, unsigned_abs};
ghost use Rattle.plans.specs.Cases.{on_some};
ghost use Rattle.charts.specs.Drafts.{arcs_of};
ghost use Rattle.tallies.specs.Laws.{wide};
ghost use Rattle.tallies.specs.Kinds.{least_size};
ghost use Rattle.through.specs.Keeping.{through_arc, below, Sifted};
ghost use Rattle.pricing.specs.Answers.{priced_below};

use crate::Pricing;
use crate::sift::sift;
use crate::sums::plus;
use charts::chart::Chart;
use rules::bank::Bank;
use tallies::kinds::Least;

/// The least amount of the plans through an arc: that before it, its price and that behind it, if there is such a plan.
fn through(front: Option<i64>, price: i64, back: Option<i64>) -> Option<i64>
    requires front_small { least_size front < wide }
    requires price_small { unsigned_abs price < wide }
    requires back_small { least_size back < wide }
    ensures value { result ≡ through_arc front price back }
    ensures small { least_size result < 3 * wide }
{
    plus(plus(front, price), back?)
}

/// Whether there is an amount and it is below the mark.
fn is_below(amount: Option<i64>, mark: i64) -> bool
    ensures { result ≡ below amount mark }
{
    amount.is_some_and(|sum| sum < mark)
}

impl<'a, B: Bank> Pricing<'a, B> {
    /// Takes away the mark of each arc on no standing plan priced below `mark`, and answers how many. That each arc has a mark is a
    /// clause: an array of 1,024 marks as the type would ask more of callers.
    pub fn strike(&self, chart: &Chart, mark: i64, standing: &mut [bool]) -> usize
        requires { length (arcs_of chart.now) ≤ length standing.old }
        ensures { Sifted (on_some (priced_below chart.now (B.Bank.rules self.now.bank.now) self.now.multipliers.now mark standing.old)) (length (arcs_of chart.now)) standing.old standing.new result }
    {
        let prices = self.standing_prices(chart, standing);
        let share = self.limits_share();
        sift::<Least, _>(
            chart,
            &prices,
            &mut [None; 1056],
            &mut [None; 1056],
            |price, front, back| is_below(plus(through(front, price, back), share), mark),
            standing,
        )
    }
}
