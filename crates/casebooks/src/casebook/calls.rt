//! The nine calls of a casebook, and how it is opened.
ghost use Rattle.std.specs.Prelude.{◌≡◌, ◌≤◌, List, Ok};
ghost use Rattle.charts.specs.Drafts.{places_of, arcs_of};
ghost use Rattle.rules.specs.Rules.{counted};
ghost use Rattle.judging.specs.Cases.{opened};
ghost use Rattle.judging.specs.Calls.{on_claim, on_price, on_sample, on_strike, on_trim, on_split, on_close, on_offer, verdict_of, Call, run};
ghost use Rattle.judging.specs.Theorem.{Recalled, Meant};
ghost use Rattle.casebooks.specs.Views.{problem_in, model_in};

use crate::casebook::Casebook;
use crate::desk::Desk;
use charts::chart::Chart;
use rules::bank::Bank;
use terms::refusal::Refusal;
use terms::routes::RouteSet;
use terms::verdict::Verdict;

impl<B: Bank> Casebook<B> {
    /// Opens a casebook on a sealed chart and a bank, and keeps both: claim 0, one case with every arc, no plan held.
    pub fn open(chart: Chart, bank: B) -> Casebook<B>
        ensures judges { problem_in B.Bank result ≡ record { places = places_of chart; arcs = arcs_of chart; rules = B.Bank.rules bank } }
        ensures model { model_in result ≡ opened (problem_in B.Bank result) }
    {
        let desk = Desk::new(chart);
        Casebook { desk, bank }
    }

    /// The number of places of the chart.
    pub fn places(&self) -> u8
        ensures value { result ≡ (problem_in B.Bank self.now).places }
        ensures few { result ≤ 32 }
    {
        self.desk.sealed()
    }

    /// The number of rules, or 129 where there are more than 128.
    pub fn rule_count(&self) -> usize
        ensures { result ≡ counted (problem_in B.Bank self.now).rules }
    {
        self.bank.count()
    }

    /// Claims that no lawful plan takes fewer minutes: 0 to 1,000,000. The pile becomes one case with every arc; the
    /// plan held remains. Answers the cases open.
    pub fn claim(&mut self, minutes: u64) -> Result<usize, Refusal>
        ensures reply { result ≡ (on_claim (problem_in B.Bank self.old) (model_in self.old) minutes).answer }
        ensures left { model_in self.new ≡ (on_claim (problem_in B.Bank self.old) (model_in self.old) minutes).left }
        ensures same { problem_in B.Bank self.new ≡ problem_in B.Bank self.old }
    {
        if minutes > 1_000_000 {
            return Err(Refusal::ClaimRange);
        }
        // In range by the row above.
        self.desk.restart(minutes as u32);
        Ok(1)
    }

    /// Answers the least priced amount over the plans that stand in the working case, if any stands, and writes the
    /// first plan with that amount into the first places of the buffer.
    pub fn price(&self, multipliers: &[i64], plan: &mut [usize]) -> Result<Option<i64>, Refusal>
        ensures reply { result ≡ (on_price (problem_in B.Bank self.now) (model_in self.now) multipliers.now plan.old).answer }
        ensures buffer { plan.new ≡ (on_price (problem_in B.Bank self.now) (model_in self.now) multipliers.now plan.old).left.buffer }
        ensures left { model_in self.now ≡ (on_price (problem_in B.Bank self.now) (model_in self.now) multipliers.now plan.old).left.model }
    {
        let pricing = self.desk.price_row(&self.bank, multipliers, plan)?;
        Ok(self.desk.priced(&pricing, plan))
    }

    /// Writes the first plan that stands in the working case into the first places of the buffer, and answers whether
    /// one stands. The buffer is lent, since nothing here allocates; so the answer is a yes or no.
    pub fn sample(&self, plan: &mut [usize]) -> Result<bool, Refusal>
        ensures reply { result ≡ (on_sample (problem_in B.Bank self.now) (model_in self.now) plan.old).answer }
        ensures buffer { plan.new ≡ (on_sample (problem_in B.Bank self.now) (model_in self.now) plan.old).left.buffer }
        ensures left { model_in self.now ≡ (on_sample (problem_in B.Bank self.now) (model_in self.now) plan.old).left.model }
    {
        self.desk.sample_row(plan)?;
        Ok(self.desk.sampled(plan))
    }

    /// Removes from the working case each arc on no standing plan priced below the mark of the claim. Answers how many.
    pub fn strike(&mut self, multipliers: &[i64]) -> Result<usize, Refusal>
        ensures reply { result ≡ (on_strike (problem_in B.Bank self.old) (model_in self.old) multipliers.now).answer }
        ensures left { model_in self.new ≡ (on_strike (problem_in B.Bank self.old) (model_in self.old) multipliers.now).left }
        ensures same { problem_in B.Bank self.new ≡ problem_in B.Bank self.old }
    {
        let pricing = self.desk.strike_row(&self.bank, multipliers)?;
        Ok(self.desk.strike(&pricing))
    }

    /// Removes from the working case each arc on no standing plan. Answers how many.
    pub fn trim(&mut self) -> Result<usize, Refusal>
        ensures reply { result ≡ (on_trim (problem_in B.Bank self.old) (model_in self.old)).answer }
        ensures left { model_in self.new ≡ (on_trim (problem_in B.Bank self.old) (model_in self.old)).left }
        ensures same { problem_in B.Bank self.new ≡ problem_in B.Bank self.old }
    {
        self.desk.case_row()?;
        Ok(self.desk.trim())
    }

    /// Removes the working case, if no plan stands in it that is priced below the mark of the claim. Answers the cases
    /// open.
    pub fn close(&mut self, multipliers: &[i64]) -> Result<usize, Refusal>
        ensures reply { result ≡ (on_close (problem_in B.Bank self.old) (model_in self.old) multipliers.now).answer }
        ensures left { model_in self.new ≡ (on_close (problem_in B.Bank self.old) (model_in self.old) multipliers.now).left }
        ensures same { problem_in B.Bank self.new ≡ problem_in B.Bank self.old }
    {
        let pricing = self.desk.strike_row(&self.bank, multipliers)?;
        if let Some(amount) = self.desk.undercut(&pricing) {
            return Err(Refusal::NotClosed(amount));
        }
        self.desk.close();
        Ok(self.desk.height())
    }

    /// Splits the working case: it keeps, at a place, only the routes outside a set, and a copy with only those
    /// inside goes on top. Answers the cases open.
    pub fn split(&mut self, place: u64, routes: RouteSet) -> Result<usize, Refusal>
        ensures reply { result ≡ (on_split (problem_in B.Bank self.old) (model_in self.old) place routes.bits).answer }
        ensures left { model_in self.new ≡ (on_split (problem_in B.Bank self.old) (model_in self.old) place routes.bits).left }
        ensures same { problem_in B.Bank self.new ≡ problem_in B.Bank self.old }
    {
        let split = self.desk.split_row(place, routes)?;
        self.desk.split(split);
        Ok(self.desk.height())
    }

    /// Judges arc numbers against the chart as sealed, and holds the plan. Answers its cost.
    pub fn offer(&mut self, arcs: &[usize]) -> Result<u32, Refusal>
        ensures reply { result ≡ (on_offer (problem_in B.Bank self.old) (model_in self.old) arcs.now).answer }
        ensures left { model_in self.new ≡ (on_offer (problem_in B.Bank self.old) (model_in self.old) arcs.now).left }
        ensures same { problem_in B.Bank self.new ≡ problem_in B.Bank self.old }
    {
        self.desk.offer_row(&self.bank, arcs)?;
        self.desk.hold(arcs);
        Ok(self.desk.cost(arcs))
    }

    /// Says what is to be said of the claim.
    pub fn verdict(&self) -> Verdict
        ensures value { result ≡ verdict_of (problem_in B.Bank self.now) (model_in self.now) }
        ensures theorem { let t = problem_in B.Bank self.now in (calls : List Call) → Recalled t calls × Meant t (run t calls (opened t)) }
        ensures meant { Meant (problem_in B.Bank self.now) (model_in self.now) }
        ensures here { let t = problem_in B.Bank self.now in (calls : List Call) → model_in self.now ≡ run t calls (opened t) → Meant t (model_in self.now) }
    {
        self.desk.verdict()
    }
}
