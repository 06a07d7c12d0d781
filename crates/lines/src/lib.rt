//! The forms of a dossier's lines: what a line says, or the first byte with which it can begin no form.
#![tactic(auto)]

pub mod form;
mod item;
mod reader;
mod word;

ghost use Rattle.std.specs.Prelude.{◌≡◌, ◌<◌, ◌≤◌, length, Err, codes, Decides, MatchBool};
ghost use Rattle.terms.specs.declared.refusal.Refusal.TheVariants.{Grammar};
ghost use Rattle.lines.specs.Impossible.{OneReading};
ghost use Rattle.lines.specs.Readings.{Reads};

use form::Form;
use reader::Reader;
use terms::refusal::Refusal;

/// Why a line is no form.
#[derive(Clone, Copy, PartialEq, Eq, Drop)]
pub struct Impossible {
    /// The place, from 1, of the first byte with which the line can begin no form.
    pub byte: u16,
}

impl From<Impossible> for Refusal {
    ghost from_gives = { λ why refusal. refusal ≡ Grammar why.byte };

    fn from(why: Impossible) -> Refusal {
        Refusal::Grammar(why.byte)
    }
}

/// The form that `line` is, or its first impossible byte.
/// A line of more than 4,096 bytes has it at 4,097.
pub fn read(line: &[u8]) -> Result<Form<'_>, Impossible>
    ensures long { 4096 < length line.now → result ≡ Err (record { byte = 4097 }) }
    ensures reads { length line.now ≤ 4096 → Reads line.now result }
{
    if too_long(line) {
        return Err(Impossible { byte: 4097 });
    }
    let mut reader = Reader::new(line);
    // With `ok_or_else` the proof did not close: what the closure is asked for is lost on the way.
    match reader.form() {
        Some(form) => Ok(form),
        None => Err(Impossible {
            byte: reader.place(line),
        }),
    }
}

/// Whether `line` has more than 4,096 bytes.
fn too_long(line: &[u8]) -> bool
    ensures { MatchBool result (4096 < length line.now) (length line.now ≤ 4096) }
{
    line.len() > 4096
}

/// Whether `line` is the one that begins a dossier.
pub fn is_header(line: &[u8]) -> bool
    ensures { Decides result (line.now ≡ codes "(casebook 1)") }
{
    line == b"(casebook 1)".as_slice()
}

/// A line is the text of at most one form, and has one answer: a form or one first impossible byte.
pub fn one_reading()
    ensures { OneReading }
{}
