//! The sweep that serves every kind of tally, the trace of a plan, and the least plan of a chart.
#![tactic(auto)]

pub mod least;
pub mod priced;
pub mod sweep;
pub mod trace;
