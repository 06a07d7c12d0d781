//! The least priced amount over the standing plans, and the first plan with that amount.
ghost use Rattle.std.specs.Prelude.{◌≡◌, ◌≤◌, length};
ghost use Rattle.plans.specs.Firsts.{cheapest, amount_in, written};
ghost use Rattle.charts.specs.Drafts.{places_of, arcs_of};
ghost use Rattle.ways.specs.Amounts.{price_at};
ghost use Rattle.ways.specs.Sums.{price_sum};
ghost use Rattle.pricing.specs.Answers.{standing_on, priced_plan, least_amount};

use crate::Pricing;
use crate::sums::plus;
use charts::chart::Chart;
use rules::bank::Bank;
use sweeps::priced::Priced;
use tallies::kinds::Least;

/// The least sum of prices over the standing plans, if any stands. `least_plan` would want a buffer for the plan.
fn least_sum(priced: &Priced) -> Option<i64>
    ensures { result ≡ amount_in (price_sum (price_at priced.now.prices.now)) (cheapest (price_sum (price_at priced.now.prices.now)) (standing_on priced.now.chart.now priced.now.standing.now)) }
{
    let mut table = [None; 1056];
    priced.backward::<Least>(&mut table);
    table[0]
}

impl<'a, B: Bank> Pricing<'a, B> {
    /// The least priced amount over the standing plans, if any stands. Who wants no plan has no buffer for one: so this stands beside
    /// `priced_plan`.
    pub fn least_amount(&self, chart: &Chart, standing: &[bool]) -> Option<i64>
        requires { length (arcs_of chart.now) ≤ length standing.now }
        ensures { result ≡ least_amount chart.now (B.Bank.rules self.now.bank.now) self.now.multipliers.now standing.now }
    {
        let prices = self.standing_prices(chart, standing);
        let priced = Priced {
            chart,
            standing,
            prices: &prices,
        };
        let sum = least_sum(&priced);
        plus(sum, self.limits_share())
    }

    /// The least priced amount over the standing plans, if any stands; writes the first plan with that amount into the
    /// first places of the buffer, which is lent, so its room is a clause; and that each arc has a mark is one, as for each of these calls.
    pub fn priced_plan(&self, chart: &Chart, standing: &[bool], plan: &mut [usize]) -> Option<i64>
        requires marks { length (arcs_of chart.now) ≤ length standing.now }
        requires room { places_of chart.now ≤ length plan.old }
        ensures amount { result ≡ least_amount chart.now (B.Bank.rules self.now.bank.now) self.now.multipliers.now standing.now }
        ensures plan { plan.new ≡ written (priced_plan chart.now (B.Bank.rules self.now.bank.now) self.now.multipliers.now standing.now) plan.old }
    {
        let prices = self.standing_prices(chart, standing);
        let priced = Priced {
            chart,
            standing,
            prices: &prices,
        };
        let sum = priced.least_plan(plan);
        plus(sum, self.limits_share())
    }
}
