//! What multipliers make of a plan: definitions and theorems, and hardly any code.
#![tactic(auto)]

pub mod theorems;
