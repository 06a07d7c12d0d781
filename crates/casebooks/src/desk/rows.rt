//! The rows of the table of refusals that several calls share.
ghost use Rattle.std.specs.Prelude.{◌≡◌, ◌<◌, ◌≤◌, [], length, IfOk, OnOk};
ghost use Rattle.std.specs.Result.{result_err};
ghost use Rattle.charts.specs.Drafts.{places_of};
ghost use Rattle.judging.specs.Calls.{too_many_rules, multiplier_rows, no_case, short_buffer, strike_rows, price_rows, sample_rows, offer_rows};
ghost use Rattle.casebooks.specs.Desks.{problem_of, model_of, rules_alone};

use crate::desk::Desk;
use crate::desk::offers::{Offered, cost_of, stray};
use pricing::Pricing;
use pricing::fair::first_unfair;
use rules::bank::Bank;
use terms::refusal::Refusal;

/// The row on the number of rules.
fn rules_row<B: Bank>(bank: &B) -> Result<(), Refusal>
    ensures { result_err result ≡ too_many_rules (rules_alone (B.Bank.rules bank.now)) }
{
    if bank.count() > 128 {
        return Err(Refusal::TooManyRules);
    }
    Ok(())
}

/// The pricing of a bank under multipliers, or the first row that refuses these: too many rules, not as many multipliers
/// as rules, a multiplier out of range or of the wrong sign.
fn multiplier_row<'a, B: Bank>(
    bank: &'a B,
    multipliers: &'a [i64],
) -> Result<Pricing<'a, B>, Refusal>
    ensures given { IfOk result (λ p. (p.bank.now ≡ bank.now) × (p.multipliers.now ≡ multipliers.now)) }
    ensures row { result_err result ≡ multiplier_rows (rules_alone (B.Bank.rules bank.now)) multipliers.now }
{
    rules_row(bank)?;
    if multipliers.len() != bank.count() {
        return Err(Refusal::MultiplierCount);
    }
    match first_unfair(bank, multipliers) {
        // At most 127.
        Some(rule) => Err(Refusal::MultiplierRange(rule as u8)),
        None => Ok(Pricing::new(bank, multipliers)),
    }
}

// Clauses say `problem_of` with the rules of a bank: a desk holds none.
impl Desk {
    /// The row on open cases.
    pub fn case_row(&self) -> Result<(), Refusal>
        ensures { result_err result ≡ no_case (model_of self.now) }
    {
        if self.height() == 0 {
            return Err(Refusal::NoCase);
        }
        Ok(())
    }

    /// The row on a buffer that is to take a plan.
    fn room_row(&self, room: &[usize]) -> Result<(), Refusal>
        ensures { result_err result ≡ short_buffer (problem_of self.now []) room.now }
    {
        if room.len() < usize::from(self.chart.places()) {
            return Err(Refusal::ShortBuffer);
        }
        Ok(())
    }

    /// The pricing of a bank under multipliers where a case is open, or the first row that refuses a call with these on
    /// the working case.
    pub fn strike_row<'a, B: Bank>(
        &self,
        bank: &'a B,
        multipliers: &'a [i64],
    ) -> Result<Pricing<'a, B>, Refusal>
        ensures given { IfOk result (λ p. (p.bank.now ≡ bank.now) × (p.multipliers.now ≡ multipliers.now)) }
        ensures some { OnOk result (0 < length (model_of self.now).pile) }
        ensures row { result_err result ≡ strike_rows (problem_of self.now (B.Bank.rules bank.now)) (model_of self.now) multipliers.now }
    {
        let pricing = multiplier_row(bank, multipliers)?;
        self.case_row()?;
        Ok(pricing)
    }

    /// The pricing of a bank under multipliers where a case is open and a buffer has room for a plan, or the first row that
    /// refuses a price with these.
    pub fn price_row<'a, B: Bank>(
        &self,
        bank: &'a B,
        multipliers: &'a [i64],
        room: &[usize],
    ) -> Result<Pricing<'a, B>, Refusal>
        ensures given { IfOk result (λ p. (p.bank.now ≡ bank.now) × (p.multipliers.now ≡ multipliers.now)) }
        ensures some { OnOk result (0 < length (model_of self.now).pile) }
        ensures room { OnOk result (places_of self.now.chart ≤ length room.now) }
        ensures row { result_err result ≡ price_rows (problem_of self.now (B.Bank.rules bank.now)) (model_of self.now) multipliers.now room.now }
    {
        let pricing = self.strike_row(bank, multipliers)?;
        self.room_row(room)?;
        Ok(pricing)
    }

    /// The first row that refuses a sample with a buffer.
    pub fn sample_row(&self, room: &[usize]) -> Result<(), Refusal>
        ensures { result_err result ≡ sample_rows (problem_of self.now []) (model_of self.now) room.now }
    {
        self.case_row()?;
        self.room_row(room)
    }

    /// The first row that refuses an offer for what it is: too many rules, not as many arcs as places, an arc that
    /// does not connect, a rule that breaks, a plan no cheaper than the one held.
    pub fn offer_row<B: Bank>(&self, bank: &B, offered: &[usize]) -> Result<(), Refusal>
        ensures { result_err result ≡ offer_rows (problem_of self.now (B.Bank.rules bank.now)) (model_of self.now) offered.now }
    {
        rules_row(bank)?;
        if offered.len() != usize::from(self.chart.places()) {
            return Err(Refusal::OfferLength);
        }
        if let Some(place) = stray(&self.chart, offered) {
            return Err(Refusal::NotConnected(place));
        }
        let offer = Offered {
            chart: &self.chart,
            plan: offered,
        };
        if let Some(rule) = offer.first_broken(bank) {
            return Err(Refusal::BreaksRule(rule));
        }
        match self.held_cost() {
            Some(cost) if cost <= cost_of(&self.chart, offered) => Err(Refusal::NotCheaper),
            _ => Ok(()),
        }
    }
}
