//! A dossier after its seal, line by line: how it is opened, and how it is judged.
//!
//! `opening` and `working` answer whole lines after the seal, and say what the verdict means from the first line on.
#![tactic(auto)]

pub mod answer;
mod multipliers;
mod offers;
pub mod opening;
pub mod working;
