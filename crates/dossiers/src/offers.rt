//! The arcs that a line offers.
ghost use Rattle.std.specs.Prelude.{◌≡◌, ℕ, List, take};
ghost use Rattle.lines.specs.Cursors.{HoldsNumbers};

use arrayvec::ArrayVec;
use lines::form::NumberItems;

/// The first arcs that a line offers, up to 33: more than any chart has places.
pub fn offered(items: NumberItems) -> ArrayVec<usize, 33>
    ensures { (arcs : List ℕ) → HoldsNumbers arcs items.entry → result.items ≡ take 33 arcs }
{
    // No `take`: a vector in fixed memory is filled one by one.
    let mut offered = ArrayVec::new();
    for arc in items {
        if offered.is_full() {
            break;
        }
        // There is no `From` of `u64` for `usize`.
        offered.push(arc as usize);
    }
    offered
}
