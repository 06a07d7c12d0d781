//! The work on what a casebook has beside its bank.
ghost use Rattle.std.specs.Prelude.{◌≡◌, ℕ, ◌<◌, ◌≤◌, false, ◌&&◌, [], ◌∷◌, length, take, None, slice_index_or, IfOk};
ghost use Rattle.std.specs.Result.{result_err};
ghost use Rattle.plans.specs.Arcs.{Sealed};
ghost use Rattle.plans.specs.Plans.{cost};
ghost use Rattle.plans.specs.Cases.{every};
ghost use Rattle.charts.specs.Drafts.{places_of, arcs_of};
ghost use Rattle.judging.specs.Cases.{inside, outside, top, under, piled};
ghost use Rattle.judging.specs.Calls.{split_rows, judged};
ghost use Rattle.ways.specs.Minutes.{cost_in};
ghost use Rattle.casebooks.specs.Desks.{problem_of, model_of, held_of, holding, restarted};

use crate::desk::offers::cost_of;
use crate::desk::{Claim, Desk, HeldPlan};
use charts::chart::Chart;
use piles::pile::{Arcs, Pile, Split};
use terms::refusal::Refusal;
use terms::routes::RouteSet;
use terms::verdict::Verdict;

/// The arcs of a chart, as the pile takes them.
fn arcs_in(chart: &Chart) -> Arcs<'_>
    ensures { result.all.now ≡ arcs_of chart.now }
{
    Arcs { all: chart.arcs() }
}

impl HeldPlan {
    /// A plan in the first places of an array. Its length is a clause, as in `cost_of`.
    fn of(plan: &[usize]) -> HeldPlan
        requires { length plan.now ≤ 32 }
        ensures { take (length plan.now) result.at ≡ plan.now }
    {
        let mut at = [0; 32];
        at[..plan.len()].copy_from_slice(plan);
        HeldPlan { at }
    }
}

// Clauses say `problem_of` with the rules of a bank, or with none: a desk holds no bank. That a case is open is asked by clauses: a
// struct that kept it would have to be made anew after each change.
impl Desk {
    /// A desk with a chart: claim 0, one case with every arc, no plan held.
    pub fn new(chart: Chart) -> Desk
        ensures chart { result.chart ≡ chart }
        ensures model { model_of result ≡ record { claimed = 0; pile = every (arcs_of chart) ∷ []; held = None } }
    {
        let pile = Pile::new();
        Desk {
            chart,
            claim: Claim { minutes: 0 },
            pile,
            held: None,
        }
    }

    /// The number of places of the chart, which is sealed.
    pub fn sealed(&self) -> u8
        ensures value { result ≡ places_of self.now.chart }
        ensures sealed { Sealed (places_of self.now.chart) (arcs_of self.now.chart) }
    {
        self.chart.places()
    }

    /// The cost of a plan of the chart. It is asked after the plan is held, when no `Offered` lends the chart any more.
    pub fn cost(&self, plan: &[usize]) -> u32
        requires { length plan.now ≤ 32 }
        ensures { result ≡ cost (arcs_of self.now.chart) plan.now }
    {
        cost_of(&self.chart, plan)
    }

    /// How many cases are open.
    pub fn height(&self) -> usize
        ensures { result ≡ length (model_of self.now).pile }
    {
        self.pile.height()
    }

    /// Sets the claim, and makes the pile one case with every arc.
    pub fn restart(&mut self, claim: u32)
        requires { claim ≤ 1_000_000 }
        ensures chart { self.new.chart ≡ self.old.chart }
        ensures model { model_of self.new ≡ restarted (arcs_of self.old.chart) (model_of self.old) claim }
    {
        self.claim = Claim { minutes: claim };
        self.pile = Pile::new();
    }

    /// Which arcs stand in the working case: an array, as long as any list of arcs, since memory is fixed.
    pub fn working(&self) -> [bool; 1024]
        requires { 0 < length (model_of self.now).pile }
        ensures long { length result ≡ 1024 }
        ensures all { length (arcs_of self.now.chart) ≤ 1024 }
        ensures each { (a : ℕ) → slice_index_or result a false ≡ top (model_of self.now).pile a }
        ensures beyond { (a : ℕ) → length (arcs_of self.now.chart) ≤ a → top (model_of self.now).pile a ≡ false }
    {
        self.pile.working(arcs_in(&self.chart))
    }

    /// Leaves in the working case only the arcs that are kept: a slice, since an array would ask more of callers.
    pub fn keep(&mut self, keeps: &[bool])
        requires some { 0 < length (model_of self.old).pile }
        requires told { length keeps.now ≡ 1024 }
        ensures chart { self.new.chart ≡ self.old.chart }
        ensures model { model_of self.new ≡ piled (model_of self.old) ((λ a. top (model_of self.old).pile a && slice_index_or keeps.now a false) ∷ under (model_of self.old).pile) }
    {
        self.pile.keep(arcs_in(&self.chart), keeps);
    }

    /// The split of the working case at a place by a set of routes, or the first row that refuses it.
    pub fn split_row(&self, place: u64, routes: RouteSet) -> Result<Split, Refusal>
        ensures given { IfOk result (λ s. (s.place ≡ place) × (s.routes ≡ routes)) }
        ensures row { result_err result ≡ split_rows (problem_of self.now []) (model_of self.now) place routes.bits }
    {
        self.case_row()?;
        if place < 1 || place > u64::from(self.chart.places()) {
            return Err(Refusal::SplitPlace);
        }
        // In range by the row above.
        let split = Split {
            place: place as u8,
            routes,
        };
        if self.pile.is_one_sided(arcs_in(&self.chart), split) {
            return Err(Refusal::OneSided);
        }
        if self.height() >= 1024 {
            return Err(Refusal::PileFull);
        }
        Ok(split)
    }

    /// Splits the working case.
    pub fn split(&mut self, split: Split)
        requires some { 0 < length (model_of self.old).pile }
        requires room { length (model_of self.old).pile < 1024 }
        ensures chart { self.new.chart ≡ self.old.chart }
        ensures model { model_of self.new ≡ piled (model_of self.old) (inside (arcs_of self.old.chart) split.place split.routes.bits (top (model_of self.old).pile) ∷ outside (arcs_of self.old.chart) split.place split.routes.bits (top (model_of self.old).pile) ∷ under (model_of self.old).pile) }
    {
        self.pile.split(arcs_in(&self.chart), split);
    }

    /// Removes the working case.
    pub fn close(&mut self)
        requires { 0 < length (model_of self.old).pile }
        ensures chart { self.new.chart ≡ self.old.chart }
        ensures model { model_of self.new ≡ piled (model_of self.old) (under (model_of self.old).pile) }
    {
        self.pile.close(arcs_in(&self.chart));
    }

    /// Holds a plan. It is no `Offered`, which would lend the chart while the desk changes.
    pub fn hold(&mut self, plan: &[usize])
        requires { length plan.now ≡ places_of self.old.chart }
        ensures chart { self.new.chart ≡ self.old.chart }
        ensures model { model_of self.new ≡ holding (model_of self.old) plan.now }
    {
        self.held = Some(HeldPlan::of(plan));
    }

    /// The cost of the plan held, if there is one.
    pub fn held_cost(&self) -> Option<u32>
        ensures { result ≡ cost_in (arcs_of self.now.chart) (model_of self.now).held }
    {
        let places = usize::from(self.chart.places());
        self.held
            .as_ref()
            .map(|plan| cost_of(&self.chart, &plan.at[..places]))
    }

    /// What is to be said of the claim.
    pub fn verdict(&self) -> Verdict
        ensures { result ≡ judged (problem_of self.now []) (model_of self.now) (model_of self.now).held }
    {
        let closed = self.pile.height() == 0;
        match self.held_cost() {
            Some(cost) if cost < self.claim.minutes => Verdict::Refuted,
            _ if !closed => Verdict::Open,
            Some(cost) if cost == self.claim.minutes => Verdict::Best,
            _ => Verdict::Proved,
        }
    }
}
