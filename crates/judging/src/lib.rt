//! What the calls of a casebook do and what its verdict means: definitions and theorems, and hardly any code.
#![tactic(auto)]

pub mod theorems;
