//! Prices of arcs and the plans through an arc: definitions and proofs, and no code.
#![tactic(auto)]
