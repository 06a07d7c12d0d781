//! One claim, one close and the verdict, on that bank.
ghost use Rattle.std.specs.Prelude.{◌≡◌, ◌≤◌};
ghost use Rattle.terms.specs.declared.verdict.Verdict.TheVariants.{Proved};
ghost use Rattle.judging.specs.Theorem.{NoneUnder};
ghost use Rattle.fifth_bank.specs.NotBefores.{judged_under};

use crate::not_before::NotBefore;
use casebooks::casebook::Casebook;
use charts::chart::Chart;
use terms::verdict::Verdict;

/// Claims, closes by multipliers, and answers the verdict. Where it is proved and the claim is at most 1,000,000, no
/// plan of the chart that keeps the bank's rule costs less than the claim.
pub fn settled(chart: Chart, bank: NotBefore, minutes: u64, multipliers: &[i64]) -> Verdict
    ensures { minutes ≤ 1000000 → result ≡ Proved → NoneUnder (judged_under chart bank.route bank.place) minutes }
{
    let mut book = Casebook::open(chart, bank);
    let _ = book.claim(minutes);
    let _ = book.close(multipliers);
    book.verdict()
}
