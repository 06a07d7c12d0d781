//! What a casebook has beside its bank.
//!
//! The work on it stands in modules below: a definition that names these structs cannot be cited in the file that
//! declares their ghost fields.
ghost use Rattle.std.specs.Prelude.{◌≤◌};

use charts::chart::Chart;
use piles::pile::Pile;

mod desks;
mod offers;
mod rows;
mod working;

/// The plan of the offer accepted last, in the first places of the array: as many as the chart has, so no length stands
/// beside it.
#[derive(Clone, Copy)]
pub struct HeldPlan {
    at: [usize; 32],
}

/// A claim: that no lawful plan takes fewer minutes. It is a struct of its own: with its fact on the desk, the calls that lend
/// the chart while the pile changes got no proof.
#[derive(Clone, Copy)]
pub struct Claim {
    minutes: u32,
    ghost modest: { minutes ≤ 1_000_000 },
}

/// A sealed chart, a claim, the open cases and the plan held, if any. No `impl Model`: a case is a function, which has no code.
#[derive(Drop)]
pub struct Desk {
    chart: Chart,
    claim: Claim,
    pile: Pile,
    held: Option<HeldPlan>,
}
