//! The words that every layer shares: arcs, refusals, heads of rules, sets of routes, verdicts.
#![tactic(auto)]

pub mod arc;
pub mod refusal;
pub mod routes;
pub mod rule;
pub mod verdict;
