//! How an answer is written.
ghost use Rattle.std.specs.Prelude.{Some, take};
ghost use Rattle.lines.specs.Forms.{spaced};
ghost use Rattle.dossiers.specs.Tolds.{told_by, written};

use super::{Answer, PlanArcs};
use std::fmt;

impl fmt::Display for PlanArcs {
    ghost output = { λ p. Some (spaced (take p.places p.at)) };

    fn fmt<W: fmt::Write>(&self, f: &mut fmt::Formatter<W>) -> fmt::Result {
        let Some((first, others)) = self.all().split_first() else {
            return Ok(());
        };
        write!(f, "{first}")?;
        for arc in others {
            write!(f, " {arc}")?;
        }
        Ok(())
    }
}

impl fmt::Display for Answer {
    ghost output = { λ a. Some (written (told_by a)) };

    fn fmt<W: fmt::Write>(&self, f: &mut fmt::Formatter<W>) -> fmt::Result {
        match self {
            Answer::Count(count) => write!(f, "{count}"),
            Answer::Amount(amount) => write!(f, "{amount}"),
            Answer::NoPlan => f.write_str("none"),
            Answer::Plan(plan) => write!(f, "{plan}"),
            Answer::Word(verdict) => write!(f, "{verdict}"),
        }
    }
}
