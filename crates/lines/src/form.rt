//! A form as it is read: numbers by value, and lists as cursors over the line.
mod next;

use std::marker::PhantomData;
use terms::arc::NewArc;

/// Items of a line, still as text.
#[derive(Clone, Copy)]
pub struct Items<'a, T> {
    pub(crate) text: &'a [u8],
    item: PhantomData<T>,
}

/// Numbers. Routes stand in brackets of their own, the arcs of an offer do not.
pub type NumberItems<'a> = Items<'a, u64>;

/// Pairs (rule, multiplier).
pub type PairItems<'a> = Items<'a, (u64, i64)>;

/// Triples (place, route, weight).
pub type TripleItems<'a> = Items<'a, (u64, u64, i64)>;

/// What a line says.
#[derive(Clone, Copy)]
pub enum Form<'a> {
    Casebook,
    Places(u64),
    Arc(NewArc),
    /// With the routes.
    Once(NumberItems<'a>),
    /// With the two routes.
    Order(u64, u64),
    /// With the limit and the entries.
    Budget(i64, TripleItems<'a>),
    Seal,
    Claim(u64),
    Price(PairItems<'a>),
    Sample,
    Strike(PairItems<'a>),
    Trim,
    /// With the place and the routes.
    Split(u64, NumberItems<'a>),
    Close(PairItems<'a>),
    /// With the arcs.
    Offer(NumberItems<'a>),
    Verdict,
}
