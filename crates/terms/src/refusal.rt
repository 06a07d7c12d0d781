//! Why a call is refused, and the number by which each refusal is reported.
mod number;

/// Why a call is refused. Where several causes hold, the earliest of this list is returned;
/// a refused call leaves everything as it was.
#[derive(Clone, Copy, Debug, PartialEq, Eq)]
pub enum Refusal {
    /// The line is no form; with the first impossible byte, counted from 1.
    Grammar(u16),
    /// The form is not allowed here.
    NotHere,
    /// A number of places outside 1 to 32.
    PlacesRange,
    /// A number of places after an arc or a budget was accepted.
    PlacesLate,
    /// The place of an arc, or of a budget entry, outside 1 to n.
    PlaceRange,
    /// A node above 31, or not 0 at the root or the end.
    NodeRange,
    /// A route above 63.
    RouteRange,
    /// Minutes above 10,000.
    MinutesRange,
    /// 1,024 arcs are drafted already.
    ArcsFull,
    /// A claim above 1,000,000.
    ClaimRange,
    /// The bank has more than 128 rules.
    TooManyRules,
    /// Not as many multipliers as rules, or a multiplier for no rule.
    MultiplierCount,
    /// A multiplier out of range or of the wrong sign; with the lowest such rule.
    MultiplierRange(u8),
    /// No case is open.
    NoCase,
    /// The place of a split outside 1 to n.
    SplitPlace,
    /// A side of a split without a standing arc at the place.
    OneSided,
    /// 1,024 cases are open.
    PileFull,
    /// The plan's buffer is shorter than n.
    ShortBuffer,
    /// An offer not of n arcs.
    OfferLength,
    /// An offered arc is missing, of another place or unconnected; with the first such place.
    NotConnected(u8),
    /// The offered plan breaks a rule; with the lowest such rule.
    BreaksRule(u8),
    /// The offered plan is no cheaper than the one held.
    NotCheaper,
    /// The case does not close; with the least amount.
    NotClosed(i64),
}
