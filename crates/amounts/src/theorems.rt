//! The theorems on priced amounts, each as the contract of a function.
ghost use Rattle.amounts.specs.Laws.{PricedBySum, NeverOverpriced, AmountsSmall};

/// A plan's priced amount is the sum of its arcs' prices and, once, the limits' share.
pub fn priced_by_sum()
    ensures { PricedBySum }
{}

/// Fair multipliers never price a lawful plan above 1000 times its cost.
pub fn never_overpriced()
    ensures { NeverOverpriced }
{}

/// Every amount is below 2 × 10^17 in size.
pub fn amounts_small()
    ensures { AmountsSmall }
{}
