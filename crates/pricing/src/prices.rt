//! The prices of arcs, and the limits' share.
ghost use Rattle.std.specs.Prelude.{◌≡◌, ℕ, ◌<◌, ◌≤◌, true, length, get_or, pos, slice_index_or, unsigned_abs};
ghost use Rattle.rules.specs.Rules.{no_rule, on_grid};
ghost use Rattle.charts.specs.Drafts.{arcs_of};
ghost use Rattle.tallies.specs.Laws.{wide};
ghost use Rattle.amounts.specs.Amounts.{owed, arc_price};
ghost use Rattle.amounts.specs.Sums.{worth_of, owed_of};
ghost use Rattle.ways.specs.Amounts.{marked, Sweepable};
ghost use Rattle.through.specs.Pricings.{Priceable, Gridded, standing_price};

use crate::Pricing;
use crate::active::active_rules;
use charts::chart::Chart;
use rules::bank::{Bank, head_at, weight_at};
use terms::arc::Arc;

impl<'a, B: Bank> Pricing<'a, B> {
    /// The pricing of a bank under fair multipliers: who makes one shows that they are.
    pub fn new(bank: &'a B, multipliers: &'a [i64]) -> Pricing<'a, B>
        requires { Priceable (B.Bank.rules bank.now) multipliers.now }
        ensures bank { result.bank.now ≡ bank.now }
        ensures multipliers { result.multipliers.now ≡ multipliers.now }
    {
        Pricing {
            bank,
            multipliers,
            active: active_rules(multipliers),
        }
    }

    /// A rule's part in an arc's price: its multiplier times its weight.
    fn weight_part(&self, rule: usize, arc: Arc) -> i64
        requires there { rule < length self.now.multipliers.now }
        requires fit { on_grid arc.place arc.route ≡ true }
        ensures { result ≡ worth_of (B.Bank.rules self.now.bank.now) self.now.multipliers.now arc.place arc.route rule }
    {
        let weight = weight_at(self.bank, rule, arc);
        self.multipliers[rule] * weight
    }

    /// An arc's price: 1000 times its minutes, and the parts of the rules.
    pub fn arc_price(&self, arc: Arc) -> i64
        requires { Gridded arc }
        ensures { result ≡ arc_price (B.Bank.rules self.now.bank.now) self.now.multipliers.now arc }
    {
        // A sum of signed numbers: its bound is shown turn by turn.
        let mut price = 1000 * i64::from(arc.minutes);
        for rule in self.active.iter() {
            price += self.weight_part(*rule, arc);
        }
        price
    }

    /// A rule's part in the limits' share: minus its multiplier times its limit.
    fn limit_part(&self, rule: usize) -> i64
        requires { rule < length self.now.multipliers.now }
        ensures { result ≡ owed_of (B.Bank.rules self.now.bank.now) self.now.multipliers.now rule }
    {
        let limit = head_at(self.bank, rule).limit;
        -(self.multipliers[rule] * limit)
    }

    /// The limits' share in every plan's priced amount.
    pub fn limits_share(&self) -> i64
        ensures value { result ≡ owed (B.Bank.rules self.now.bank.now) self.now.multipliers.now }
        ensures small { unsigned_abs result < wide }
    {
        let mut share = 0i64;
        for rule in self.active.iter() {
            share += self.limit_part(*rule);
        }
        share
    }

    /// The price of each standing arc of a chart, and 0 for the others. That each arc has a mark is a clause: an array of
    /// 1,024 marks as the type would ask more of callers.
    pub fn standing_prices(&self, chart: &Chart, standing: &[bool]) -> [i64; 1024]
        requires { length (arcs_of chart.now) ≤ length standing.now }
        ensures long { length result ≡ 1024 }
        ensures each { (a : ℕ) → slice_index_or result a (pos 0) ≡ standing_price (B.Bank.rules self.now.bank.now) self.now.multipliers.now (arcs_of chart.now) (marked standing.now) a }
        ensures fit { Sweepable (arcs_of chart.now) standing.now result }
    {
        // An array, as long as any list of arcs: memory is fixed. By number: marks and prices stand beside the arcs of a sealed chart.
        let mut prices = [0; 1024];
        for (i, arc) in chart.arcs().iter().enumerate() {
            if standing[i] {
                prices[i] = self.arc_price(*arc);
            }
        }
        prices
    }
}
