//! Which multipliers are fair.
ghost use Rattle.std.specs.Prelude.{◌≡◌, ◌<◌, ◌≤◌, length, get_or};
ghost use Rattle.rules.specs.Rules.{no_rule};
ghost use Rattle.amounts.specs.Multipliers.{fair as may_have, unfair, lowest};
ghost use Rattle.through.specs.Pricings.{Matched};

use rules::bank::{Bank, head_at};
use terms::rule::Sense;

/// Whether a rule of this sense may have this multiplier.
fn is_fair(sense: Sense, multiplier: i64) -> bool
    ensures { result ≡ may_have sense multiplier }
{
    match sense {
        Sense::AtMost => (0..=1_000_000_000).contains(&multiplier),
        Sense::Exactly => (-1_000_000_000..=1_000_000_000).contains(&multiplier),
    }
}

/// Whether a rule of the bank may have this multiplier.
fn has_fair<B: Bank>(bank: &B, rule: usize, multiplier: i64) -> bool
    requires few { length (B.Bank.rules bank.now) ≤ 128 }
    requires there { rule < length (B.Bank.rules bank.now) }
    ensures { result ≡ may_have (get_or (B.Bank.rules bank.now) rule no_rule).sense multiplier }
{
    is_fair(head_at(bank, rule).sense, multiplier)
}

/// The lowest rule whose multiplier is out of range or of the wrong sign, if there is one. It is what shows that a `Pricing` may be
/// made, so there is none yet.
pub fn first_unfair<B: Bank>(bank: &B, multipliers: &[i64]) -> Option<usize>
    requires { Matched (B.Bank.rules bank.now) multipliers.now }
    ensures { result ≡ lowest (unfair (B.Bank.rules bank.now) multipliers.now) }
{
    // No `position`: its closure would owe what `has_fair` asks of a rule.
    for (rule, multiplier) in multipliers.iter().enumerate() {
        if !has_fair(bank, rule, *multiplier) {
            return Some(rule);
        }
    }
    None
}
