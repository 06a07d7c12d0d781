//! The multipliers that a line names.
ghost use Rattle.std.specs.Prelude.{◌≡◌, ℕ, List, ℤ};
ghost use Rattle.lines.specs.Cursors.{HoldsPairs};
ghost use Rattle.dossiers.specs.Namings.{ReadAs};

use arrayvec::ArrayVec;
use lines::form::PairItems;
use terms::refusal::Refusal;

/// The multipliers that a line names, one for each of so many rules: 0 where a rule is not named, and the last naming
/// counts. A bank of over 128 rules and a multiplier for no rule are refused.
pub fn named(items: PairItems, count: usize) -> Result<ArrayVec<i64, 128>, Refusal>
    ensures { (xs : List (ℕ × ℤ)) → HoldsPairs xs items.entry → ReadAs count xs result }
{
    if count > 128 {
        return Err(Refusal::TooManyRules);
    }
    let mut multipliers = ArrayVec::from([0; 128]);
    multipliers.truncate(count);
    for (rule, multiplier) in items {
        // There is no `From` of `u64` for `usize`.
        let rule = rule as usize;
        if rule >= multipliers.len() {
            return Err(Refusal::MultiplierCount);
        }
        multipliers[rule] = multiplier;
    }
    Ok(multipliers)
}
