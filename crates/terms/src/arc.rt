//! An arc of a chart, and an arc as a client gives it.

/// An arc of place `place`: from node `start` of that level to node `end` of the next.
/// It tests `route` and takes `minutes`.
#[derive(Clone, Copy, Debug, PartialEq, Eq)]
pub struct Arc {
    pub place: u8,
    pub start: u8,
    pub end: u8,
    pub route: u8,
    pub minutes: u16,
}

/// An arc as a client gives it: any numbers, not judged yet.
#[derive(Clone, Copy, Debug, PartialEq, Eq)]
pub struct NewArc {
    pub place: u64,
    pub start: u64,
    pub end: u64,
    pub route: u64,
    pub minutes: u64,
}
