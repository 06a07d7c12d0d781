//! A dossier before its seal: the header, the chart and the rules, line by line.
#![tactic(auto)]

pub mod book;
pub mod drafting;
pub mod items;
pub mod theorems;
