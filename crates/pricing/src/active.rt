//! The rules that have a part in prices.
ghost use Rattle.std.specs.Prelude.{◌≡◌, ◌≤◌, length};
ghost use Rattle.through.specs.Pricings.{counts, counting};

use arrayvec::ArrayVec;

/// Whether a rule with this multiplier has any part in prices.
fn counts(multiplier: i64) -> bool
    ensures { result ≡ counts multiplier }
{
    multiplier != 0
}

/// The numbers of the rules whose multiplier is not 0.
pub fn active_rules(multipliers: &[i64]) -> ArrayVec<usize, 128>
    requires { length multipliers.now ≤ 128 }
    ensures { result.items ≡ counting multipliers.now }
{
    let mut active = ArrayVec::new();
    for (rule, multiplier) in multipliers.iter().enumerate() {
        if counts(*multiplier) {
            active.push(rule);
        }
    }
    active
}
