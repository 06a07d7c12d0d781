//! Kinds of tally over plans, and the two directions of a sweep.
#![tactic(auto)]

pub mod heading;
pub mod kinds;
pub mod tally;
