//! A casebook.
//!
//! The calls stand in a module below: a definition that names the struct cannot be cited in the file that declares its
//! ghost field.
ghost use Rattle.casebooks.specs.Desks.{problem_of, model_of};
ghost use Rattle.casebooks.specs.Reached.{Reached};

use crate::desk::Desk;
use rules::bank::Bank;

mod calls;

/// A casebook: what is judged, and how far the judging has come.
#[derive(Drop)]
pub struct Casebook<B: Bank> {
    desk: Desk,
    bank: B,
    // some list of calls led here from a casebook as opened
    ghost reached: { ∥ Reached (problem_of desk (B.Bank.rules bank)) (model_of desk) ∥₁ },
}
