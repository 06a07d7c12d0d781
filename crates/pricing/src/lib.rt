//! A bank of rules with a fair multiplier for each: the prices of arcs, and what they tell of the standing plans.
//!
//! The calls stand in modules of their own: a definition that names this struct cannot be cited in the file that
//! declares its ghost fields.
#![tactic(auto)]

ghost use Rattle.std.specs.Prelude.{◌≡◌};
ghost use Rattle.through.specs.Pricings.{Priceable, priceable_prop, counting};

mod active;
pub mod fair;
mod price;
mod prices;
mod sift;
mod strike;
mod sums;
pub mod trim;

use arrayvec::ArrayVec;
use rules::bank::Bank;

/// A bank of at most 128 rules with a fair multiplier for each, which who makes one has to show, and the numbers of the rules whose multiplier is not 0:
/// no other is asked for an arc's price.
#[derive(Drop)]
pub struct Pricing<'a, B: Bank> {
    bank: &'a B,
    multipliers: &'a [i64],
    active: ArrayVec<usize, 128>,
    // at most 128 rules, and a fair multiplier for each
    ghost asked: { Priceable (B.Bank.rules bank.now) multipliers.now } by { priceable_prop (B.Bank.rules bank.now) multipliers.now },
    // the numbers of all rules whose multiplier is not 0, in rising order
    ghost counted: { active.items ≡ counting multipliers.now },
}
