//! Charts: drafted arc by arc, then sealed; and what a plan of a chart is.
#![tactic(auto)]

pub mod chart;
