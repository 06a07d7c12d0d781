//! The theorems on plans, each as the contract of a function.
ghost use Rattle.plans.specs.Plans.{PlansListed, PlansEnd};
ghost use Rattle.plans.specs.Words.{StandingMeans};

/// The lists of plans and of partial plans have each of them once, and nothing else.
pub fn plans_listed()
    ensures { PlansListed }
{}

/// On a sealed chart every plan ends at the end.
pub fn plans_end()
    ensures { PlansEnd }
{}

/// What the standing plans, the first of them and the first with the least amount are.
pub fn standing_means()
    ensures { StandingMeans }
{}
