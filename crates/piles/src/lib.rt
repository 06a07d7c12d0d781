//! The pile of open cases: one array of marks for the arcs, and a table of split records.
#![tactic(auto)]

pub mod pile;
