//! What the items of a form mean, as the contract of a function.
ghost use Rattle.unsealed.specs.Meanings.{ItemsMean};

/// The set of a form's routes has just those routes; a budget weighs what is named last.
pub fn items_mean()
    ensures { ItemsMean }
{}
