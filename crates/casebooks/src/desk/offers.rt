//! What an offered plan is judged by: its arcs, the rules and its cost.
ghost use Rattle.std.specs.Prelude.{◌≡◌, ℕ, ◌<◌, ◌≤◌, Bool, true, false, not, List, map, length, get_or, None, slice_index, slice_index_or, unsigned_abs};
ghost use Rattle.plans.specs.Arcs.{arc_at};
ghost use Rattle.plans.specs.Plans.{cost};
ghost use Rattle.charts.specs.Drafts.{places_of, arcs_of};
ghost use Rattle.rules.specs.Rules.{no_rule, counted as counted_of};
ghost use Rattle.rules.specs.Lawful.{weighed, holds, meets as meets_in};
ghost use Rattle.amounts.specs.Multipliers.{lowest};
ghost use Rattle.judging.specs.Calls.{stray as stray_in, broken};

use charts::chart::Chart;
use rules::bank::{Bank, head_at, weight_at};
use terms::rule::Sense;

/// The minutes of an arc, and 0 for a number that no arc has.
fn minutes_of(chart: &Chart, number: usize) -> u16
    ensures { result ≡ (arc_at (arcs_of chart.now) number).minutes }
{
    // The definition of an arc by its number has 0 there too.
    chart.arc(number).map_or(0, |arc| arc.minutes)
}

// A plan that is held, or not known to be there yet, is a slice with a clause on its length; one whose arcs are all there is `Offered`.

/// The cost of a plan: the sum of its minutes.
pub fn cost_of(chart: &Chart, plan: &[usize]) -> u32
    requires { length plan.now ≤ 32 }
    ensures { result ≡ cost (arcs_of chart.now) plan.now }
{
    plan.iter()
        .map(|number| u32::from(minutes_of(chart, *number)))
        .sum()
}

/// The first place whose arc is missing, of another place or unconnected.
pub fn stray(chart: &Chart, offered: &[usize]) -> Option<u8>
    requires { length offered.now ≤ 32 }
    ensures { result ≡ stray_in (arcs_of chart.now) 1 0 offered.now }
{
    let mut node = 0u8;
    for (j, number) in offered.iter().enumerate() {
        // At most 32.
        let place = j as u8 + 1;
        let Some(arc) = chart.arc(*number) else {
            return Some(place);
        };
        if arc.place != place || arc.start != node {
            return Some(place);
        }
        node = arc.end;
    }
    None
}

/// Whether a total meets a sense.
fn meets(sense: Sense, total: i64) -> bool
    ensures { result ≡ meets_in sense total }
{
    match sense {
        Sense::AtMost => total <= 0,
        Sense::Exactly => total == 0,
    }
}

/// Arcs of a chart that are all there, and no more of them than a chart has places.
#[derive(Clone, Copy)]
pub struct Offered<'a> {
    pub chart: &'a Chart,
    pub plan: &'a [usize],
    ghost few: { length plan.now ≤ 32 },
    ghost there: { (i : ℕ) → i < length plan.now → slice_index plan.now i < length (arcs_of chart.now) },
}

// That the bank has the rule is a clause: a struct of a bank and a rule would be made for each number and used once.
impl Offered<'_> {
    /// The weight of a rule at an arc of the plan.
    fn weight_at<B: Bank>(self, bank: &B, rule: usize, number: usize) -> i64
        requires there { number < length (arcs_of self.chart.now) }
        requires counted { rule < counted_of (B.Bank.rules bank.now) }
        ensures value { result ≡ (get_or (B.Bank.rules bank.now) rule no_rule).weight (arc_at (arcs_of self.entry.chart.now) number).place (arc_at (arcs_of self.entry.chart.now) number).route }
        ensures small { unsigned_abs result ≤ 10000 }
    {
        weight_at(bank, rule, self.chart.arc(number).unwrap())
    }

    /// The sum of a rule's weights on the plan.
    fn weigh<B: Bank>(self, bank: &B, rule: usize) -> i64
        requires { rule < counted_of (B.Bank.rules bank.now) }
        ensures value { result ≡ weighed (arcs_of self.entry.chart.now) (slice_index_or (B.Bank.rules bank.now) rule no_rule) self.entry.plan.now }
        ensures small { unsigned_abs result ≤ 320000 }
    {
        // A sum of signed numbers: its bound is shown turn by turn.
        let mut sum = 0;
        for number in self.plan {
            sum += self.weight_at(bank, rule, *number);
        }
        sum
    }

    /// Whether the plan breaks a rule.
    fn breaks<B: Bank>(self, bank: &B, rule: usize) -> bool
        requires { rule < counted_of (B.Bank.rules bank.now) }
        ensures { result ≡ not (holds (arcs_of self.entry.chart.now) self.entry.plan.now (slice_index_or (B.Bank.rules bank.now) rule no_rule)) }
    {
        let head = head_at(bank, rule);
        !meets(head.sense, self.weigh(bank, rule) - head.limit)
    }

    /// The lowest rule that the plan breaks.
    pub fn first_broken<B: Bank>(self, bank: &B) -> Option<u8>
        requires { length (B.Bank.rules bank.now) ≤ 128 }
        ensures { result ≡ lowest (broken (arcs_of self.entry.chart.now) self.entry.plan.now (B.Bank.rules bank.now)) }
    {
        // Numbers of rules: a bank is no list. No `find`: its closure would owe what `breaks` asks of a rule.
        for rule in 0..bank.count() {
            if self.breaks(bank, rule) {
                // At most 127.
                return Some(rule as u8);
            }
        }
        None
    }
}
