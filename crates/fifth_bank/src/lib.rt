//! A make of bank that is written outside the crate of banks, and a casebook opened on it.
#![tactic(auto)]

pub mod not_before;
pub mod settle;
#[cfg(test)]
mod tests;
