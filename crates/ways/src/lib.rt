//! What a sweep and a trace give: definitions and proofs for every kind of tally, and no code.
#![tactic(auto)]
