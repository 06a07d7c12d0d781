//! What is asked of every bank of rules.
ghost use Rattle.std.specs.Prelude.{◌≡◌, ◌<◌, min, true, List, get_or};
ghost use Rattle.rules.specs.Rules.{Rule, no_rule, counted, head_in, head_of, weight_of, on_grid, Within, InRange};

use terms::arc::Arc;
use terms::rule::Head;

/// A bank of rules. It means a list of rules; the three questions are about that list, and change nothing.
pub trait Bank {
    // The rules that the bank means, in their order.
    ghost rules: { Self → List Rule };

    // Each limit and each weight is in its range.
    ghost within: { (s : Self) → InRange (rules s) };

    /// The number of rules, or 129 where there are more than 128.
    fn count(&self) -> usize
        ensures { result ≡ counted (rules self.now) };

    /// The sense and the limit of a rule; none for a rule not below the count.
    fn head(&self, rule: usize) -> Option<Head>
        ensures { result ≡ head_of (rules self.now) rule };

    /// The weight of a rule at a place and a route; none for a rule not below the count, a place outside 1 to 32 or a route above 63.
    fn weight(&self, rule: usize, place: u64, route: u64) -> Option<i64>
        ensures { result ≡ weight_of (rules self.now) rule place route };
}

/// The count that a bank of `rules` rules answers: 129 stands for more than 128, as a bank's meaning has it.
pub fn capped(rules: usize) -> usize
    ensures { result ≡ min rules 129 }
{
    rules.min(129)
}

/// Whether a place is from 1 to 32 and a route at most 63.
pub fn on_grid(place: u64, route: u64) -> bool
    ensures { result ≡ on_grid place route }
{
    1 <= place && place <= 32 && route <= 63
}

// That the bank has the rule is a clause: a struct of a bank and a rule would be made for each number and used once.

/// The head of a rule that the bank has.
pub fn head_at<B: Bank>(bank: &B, rule: usize) -> Head
    requires { rule < counted (B.Bank.rules bank.now) }
    ensures value { result ≡ head_in (get_or (B.Bank.rules bank.now) rule no_rule) }
    ensures small { Within 1000000 result.limit }
{
    bank.head(rule).unwrap()
}

/// The weight of a rule that the bank has, at an arc's place and route.
pub fn weight_at<B: Bank>(bank: &B, rule: usize, arc: Arc) -> i64
    requires there { rule < counted (B.Bank.rules bank.now) }
    requires fit { on_grid arc.place arc.route ≡ true }
    ensures value { result ≡ (get_or (B.Bank.rules bank.now) rule no_rule).weight arc.place arc.route }
    ensures small { Within 10000 result }
{
    let weight = bank.weight(rule, u64::from(arc.place), u64::from(arc.route));
    weight.unwrap()
}
