//! Sets of routes.
ghost use Rattle.std.specs.Prelude.{◌≡◌, ℕ, ◌-◌, ◌^◌, ◌<◌, ◌≤◌, ◌&&◌, ◌||◌, length, ◌==◌, bit_and, bit_or, nat_le};
ghost use Rattle.terms.specs.Routes.{in_set, members, routes_of, with_route, accepted};

use crate::refusal::Refusal;

/// A set of routes 0 to 63: route `q` is in it where the bit of worth 2 to the power `q` is set.
#[derive(Clone, Copy, Debug, PartialEq, Eq)]
pub struct RouteSet {
    bits: u64,
}

// Whether a number is a route's.
fn is_route(route: u64) -> bool
    ensures { result ≡ nat_le route 63 }
{
    route <= 63
}

// The bit of a route.
fn bit(route: u64) -> u64
    requires { route ≤ 63 }
    ensures { result ≡ 2 ^ route }
{
    1 << route
}

impl RouteSet {
    /// The empty set.
    pub fn none() -> RouteSet
        ensures { result.bits ≡ 0 }
    {
        RouteSet { bits: 0 }
    }

    /// Puts a route into the set. A route above 63 is refused, and the set stays as it was.
    pub fn insert(&mut self, route: u64) -> Result<(), Refusal>
        ensures answer { result ≡ accepted route }
        ensures inside { (q : ℕ) → in_set self.new.bits q ≡ ((nat_le route 63 && q == route) || in_set self.old.bits q) }
        ensures bits { self.new.bits ≡ with_route self.old.bits route }
        ensures refused { 63 < route → self.new.bits ≡ self.old.bits }
    {
        if !is_route(route) {
            return Err(Refusal::RouteRange);
        }
        *self = self.with(route);
        Ok(())
    }

    /// Whether a route is in the set.
    pub fn contains(self, route: u64) -> bool
        ensures { result ≡ in_set self.bits route }
    {
        is_route(route) && (self.bits >> route) % 2 == 1
    }

    /// How many routes are in the set.
    pub fn len(self) -> usize
        ensures { result ≡ length (routes_of self.bits) }
    {
        // There is no `From` of `u32` for `usize`.
        self.bits.count_ones() as usize
    }

    /// How many routes of the set are below `route`. This is the number, from 0, of `route` in rising order, if it is in the set.
    pub fn rank(self, route: u64) -> usize
        ensures { result ≡ length (members self.bits route) }
    {
        if is_route(route) {
            self.below(route).len()
        } else {
            self.len()
        }
    }

    // The set with a route put in.
    fn with(self, route: u64) -> RouteSet
        requires { route ≤ 63 }
        ensures { result.bits ≡ bit_or self.bits (2 ^ route) }
    {
        RouteSet {
            bits: self.bits | bit(route),
        }
    }

    // The routes of the set below a route.
    fn below(self, route: u64) -> RouteSet
        requires { route ≤ 63 }
        ensures { result.bits ≡ bit_and self.bits (2 ^ route - 1) }
    {
        RouteSet {
            bits: self.bits & (bit(route) - 1),
        }
    }
}
