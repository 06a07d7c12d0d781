//! What a plan of a chart is: definitions and theorems, and hardly any code.
#![tactic(auto)]

pub mod theorems;
