//! Banks of rules. A bank is known by the list of its rules alone; there are four makes of it.
#![tactic(auto)]

pub mod bank;
pub mod budget;
pub mod once;
pub mod order;
pub mod pair;
