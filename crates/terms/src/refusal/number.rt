//! The number of a refusal, and the value beside it.
ghost use Rattle.std.specs.Prelude.{◌≡◌, Some};
ghost use Rattle.terms.specs.Refusals.{number_of, reported};

use super::Refusal;
use std::fmt;

impl Refusal {
    /// The number by which a refusal is reported, and the value beside it: 0 where it has none, as the format wants.
    pub fn number(self) -> (u8, i64)
        ensures { result ≡ number_of self }
    {
        match self {
            Refusal::Grammar(byte) => (1, i64::from(byte)),
            Refusal::NotHere => (2, 0),
            Refusal::PlacesRange => (3, 0),
            Refusal::PlacesLate => (4, 0),
            Refusal::PlaceRange => (5, 0),
            Refusal::NodeRange => (6, 0),
            Refusal::RouteRange => (7, 0),
            Refusal::MinutesRange => (8, 0),
            Refusal::ArcsFull => (9, 0),
            Refusal::ClaimRange => (10, 0),
            Refusal::TooManyRules => (11, 0),
            Refusal::MultiplierCount => (12, 0),
            Refusal::MultiplierRange(rule) => (13, i64::from(rule)),
            Refusal::NoCase => (14, 0),
            Refusal::SplitPlace => (15, 0),
            Refusal::OneSided => (16, 0),
            Refusal::PileFull => (17, 0),
            Refusal::ShortBuffer => (18, 0),
            Refusal::OfferLength => (19, 0),
            Refusal::NotConnected(place) => (20, i64::from(place)),
            Refusal::BreaksRule(rule) => (21, i64::from(rule)),
            Refusal::NotCheaper => (22, 0),
            Refusal::NotClosed(amount) => (23, amount),
        }
    }
}

impl fmt::Display for Refusal {
    ghost output = { λ e. Some (reported e) };

    fn fmt<W: fmt::Write>(&self, f: &mut fmt::Formatter<W>) -> fmt::Result {
        let (number, value) = self.number();
        write!(f, "{number} {value}")
    }
}
