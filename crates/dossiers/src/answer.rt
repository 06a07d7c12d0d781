//! What a line is answered.
ghost use Rattle.std.specs.Prelude.{◌≡◌, ◌≤◌, take};

mod shown;

use terms::verdict::Verdict;

/// The arcs of a plan. An answer is copied, and a vector of the kit is not: so they stand in the first places of an array.
#[derive(Clone, Copy, Drop)]
pub struct PlanArcs {
    pub(crate) at: [usize; 32],
    pub(crate) places: u8,
    ghost few: { places ≤ 32 },
}

impl PlanArcs {
    /// The arcs, by place.
    pub fn all(&self) -> &[usize]
        ensures { result.now ≡ take self.now.places self.now.at }
    {
        &self.at[..usize::from(self.places)]
    }
}

/// The answer to an accepted line.
#[derive(Clone, Copy, Drop)]
pub enum Answer {
    /// How many, or which: a number of cases, arcs, rules, places or minutes, or an arc's number.
    Count(usize),
    /// A priced amount.
    Amount(i64),
    /// No plan stands.
    NoPlan,
    /// A plan by its arcs.
    Plan(PlanArcs),
    /// What is said of the claim.
    Word(Verdict),
}
