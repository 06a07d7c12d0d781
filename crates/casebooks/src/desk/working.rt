//! The work on the working case that prices and sweeps.
ghost use Rattle.std.specs.Prelude.{◌≡◌, ℕ, ◌*◌, ◌<◌, ◌≤◌, [], length, pos, Ok};
ghost use Rattle.charts.specs.Drafts.{places_of};
ghost use Rattle.plans.specs.Firsts.{foremost, written, is_there};
ghost use Rattle.judging.specs.Cases.{mark as mark_of, standing_in, first_plan, least, top};
ghost use Rattle.judging.specs.Calls.{keeping, cheaply, undercut as undercut_by};
ghost use Rattle.casebooks.specs.Desks.{problem_of, model_of};

use crate::desk::{Claim, Desk};
use pricing::Pricing;
use pricing::trim::trim;
use rules::bank::Bank;
use sweeps::least::first_plan;

impl Claim {
    /// The mark of a claim: a case closes if no plan that stands in it is priced below.
    fn mark(self) -> i64
        ensures { result ≡ mark_of self.minutes }
    {
        1000 * i64::from(self.minutes)
    }
}

/// An amount, where it is below the mark.
fn below(amount: Option<i64>, mark: i64) -> Option<i64>
    ensures { result ≡ undercut_by mark amount }
{
    amount.filter(|least| *least < mark)
}

// Clauses say `problem_of` with the rules of a bank: a desk holds none. A case is open and a lent buffer has room by clauses, as the
// rows have shown. `strike` and `trim` differ in the call that takes marks away, and one has a pricing: a closure for it is no plainer.
impl Desk {
    /// The least priced amount over the plans that stand in the working case; writes the first plan with that amount.
    pub fn priced<B: Bank>(&self, pricing: &Pricing<B>, plan: &mut [usize]) -> Option<i64>
        requires some { 0 < length (model_of self.now).pile }
        requires room { places_of self.now.chart ≤ length plan.old }
        ensures amount { result ≡ least (problem_of self.now (B.Bank.rules pricing.now.bank.now)) pricing.now.multipliers.now (top (model_of self.now).pile) }
        ensures plan { plan.new ≡ written (first_plan (problem_of self.now (B.Bank.rules pricing.now.bank.now)) pricing.now.multipliers.now (top (model_of self.now).pile)) plan.old }
    {
        let standing = self.working();
        pricing.priced_plan(&self.chart, &standing, plan)
    }

    /// Whether a plan stands in the working case; writes the first that does into a lent buffer, so the answer is a yes or no.
    pub fn sampled(&self, plan: &mut [usize]) -> bool
        requires some { 0 < length (model_of self.now).pile }
        requires room { places_of self.now.chart ≤ length plan.old }
        ensures answer { result ≡ is_there (foremost (standing_in (problem_of self.now []) (top (model_of self.now).pile))) }
        ensures plan { plan.new ≡ written (foremost (standing_in (problem_of self.now []) (top (model_of self.now).pile))) plan.old }
    {
        let standing = self.working();
        first_plan(&self.chart, &standing, plan)
    }

    /// The least priced amount of the working case, where it is below the mark of the claim.
    pub fn undercut<B: Bank>(&self, pricing: &Pricing<B>) -> Option<i64>
        requires some { 0 < length (model_of self.now).pile }
        ensures { result ≡ undercut_by (mark_of (model_of self.now).claimed) (least (problem_of self.now (B.Bank.rules pricing.now.bank.now)) pricing.now.multipliers.now (top (model_of self.now).pile)) }
    {
        let standing = self.working();
        below(
            pricing.least_amount(&self.chart, &standing),
            self.claim.mark(),
        )
    }

    /// Removes from the working case each arc on no standing plan priced below the mark. Answers how many.
    pub fn strike<B: Bank>(&mut self, pricing: &Pricing<B>) -> usize
        requires some { 0 < length (model_of self.old).pile }
        ensures chart { self.new.chart ≡ self.old.chart }
        ensures answer { Ok result ≡ (keeping (problem_of self.old (B.Bank.rules pricing.now.bank.now)) (model_of self.old) (cheaply (problem_of self.old (B.Bank.rules pricing.now.bank.now)) (model_of self.old) pricing.now.multipliers.now)).answer }
        ensures model { model_of self.new ≡ (keeping (problem_of self.old (B.Bank.rules pricing.now.bank.now)) (model_of self.old) (cheaply (problem_of self.old (B.Bank.rules pricing.now.bank.now)) (model_of self.old) pricing.now.multipliers.now)).left }
    {
        let mut standing = self.working();
        let removed = pricing.strike(&self.chart, self.claim.mark(), &mut standing);
        self.keep(&standing);
        removed
    }

    /// Removes from the working case each arc on no standing plan. Answers how many.
    pub fn trim(&mut self) -> usize
        requires { 0 < length (model_of self.old).pile }
        ensures chart { self.new.chart ≡ self.old.chart }
        ensures answer { Ok result ≡ (keeping (problem_of self.old []) (model_of self.old) (standing_in (problem_of self.old []) (top (model_of self.old).pile))).answer }
        ensures model { model_of self.new ≡ (keeping (problem_of self.old []) (model_of self.old) (standing_in (problem_of self.old []) (top (model_of self.old).pile))).left }
    {
        let mut standing = self.working();
        let removed = trim(&self.chart, &mut standing);
        self.keep(&standing);
        removed
    }
}
