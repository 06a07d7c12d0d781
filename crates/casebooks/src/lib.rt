//! The casebook: a sealed chart and a bank of rules, a claim, open cases and a plan held, and the nine calls on them.
#![tactic(auto)]

pub mod casebook;
pub mod desk;
