//! The head of a rule: its sense and its limit.

/// When a rule holds: its total is 0 or below, or it is 0.
#[derive(Clone, Copy, Debug, PartialEq, Eq)]
pub enum Sense {
    AtMost,
    Exactly,
}

/// A rule without its weights.
#[derive(Clone, Copy, Debug, PartialEq, Eq)]
pub struct Head {
    pub sense: Sense,
    pub limit: i64,
}
