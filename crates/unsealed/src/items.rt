//! What the items of a form name.
ghost use Rattle.std.specs.Prelude.{◌≡◌, ℕ, ◌-◌, ◌^◌, min, List, ℤ, slice_set};
ghost use Rattle.std.specs.List.{list_any};
ghost use Rattle.lines.specs.Cursors.{HoldsNumbers, HoldsTriples};
ghost use Rattle.unsealed.specs.Items.{routes_read, place_outside, route_outside, entry_of, stored};

use lines::form::{NumberItems, TripleItems};
use terms::refusal::Refusal;
use terms::routes::RouteSet;

/// The set of the routes of a form; a route above 63 is refused.
pub fn route_set(items: NumberItems) -> Result<RouteSet, Refusal>
    ensures { (qs : List ℕ) → HoldsNumbers qs items.entry → result ≡ routes_read qs }
{
    let mut routes = RouteSet::none();
    for route in items {
        routes.insert(route)?;
    }
    Ok(routes)
}

/// Whether the place of an entry lies outside 1 to `places`.
fn off_places(entry: (u64, u64, i64), places: u8) -> bool
    ensures { result ≡ place_outside places entry }
{
    entry.0 < 1 || entry.0 > u64::from(places)
}

/// Whether the route of an entry lies above 63.
fn off_routes(entry: (u64, u64, i64)) -> bool
    ensures { result ≡ route_outside entry }
{
    entry.1 > 63
}

/// Whether the place of some entry lies outside 1 to `places`.
pub fn any_place_outside(mut items: TripleItems, places: u8) -> bool
    ensures { (xs : List (ℕ × ℕ × ℤ)) → HoldsTriples xs items.entry → result ≡ list_any (place_outside places) xs }
{
    items.any(|entry| off_places(entry, places))
}

/// Whether the route of some entry lies above 63.
pub fn any_route_outside(mut items: TripleItems) -> bool
    ensures { (xs : List (ℕ × ℕ × ℤ)) → HoldsTriples xs items.entry → result ≡ list_any route_outside xs }
{
    items.any(off_routes)
}

/// Where the weight of a place and a route stands in a table; past the end of every table, where that number does not fit.
fn entry_at(place: u64, route: u64) -> usize
    ensures { result ≡ min (entry_of place route) (2 ^ 64 - 1) }
{
    // There is no `From` of `u64` for `usize`.
    64u64
        .saturating_mul(place.saturating_sub(1))
        .saturating_add(route) as usize
}

/// Writes a number into a table; nothing past its end.
pub fn put(table: &mut [i64], at: usize, value: i64)
    ensures { table.new ≡ slice_set table.old at value }
{
    // By index: after a write through `get_mut` of a slice a proof knows no element.
    if at < table.len() {
        table[at] = value;
    }
}

/// Writes the weight of an entry where it stands.
fn place(table: &mut [i64], entry: (u64, u64, i64))
    ensures { table.new ≡ slice_set table.old (entry_of entry.0 entry.1) entry.2 }
{
    put(table, entry_at(entry.0, entry.1), entry.2);
}

/// Writes entries into a table, one after another, so that of two for one place and route the last counts.
pub fn store(table: &mut [i64], items: TripleItems)
    ensures { (xs : List (ℕ × ℕ × ℤ)) → HoldsTriples xs items.entry → table.new ≡ stored table.old xs }
{
    for entry in items {
        place(table, entry);
    }
}
