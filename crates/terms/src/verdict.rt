//! What a casebook says of its claim.
ghost use Rattle.std.specs.Prelude.{Some};
ghost use Rattle.terms.specs.Verdicts.{word_of};

use std::fmt;

/// The verdict on a claim.
#[derive(Clone, Copy, Debug, PartialEq, Eq)]
pub enum Verdict {
    /// A case is open still, and no plan held is cheaper than the claim.
    Open,
    /// No lawful plan costs less than the claim.
    Proved,
    /// No lawful plan costs less than the claim, and the plan held costs exactly that.
    Best,
    /// The plan held costs less than the claim.
    Refuted,
}

impl fmt::Display for Verdict {
    ghost output = { λ v. Some (word_of v) };

    fn fmt<W: fmt::Write>(&self, f: &mut fmt::Formatter<W>) -> fmt::Result {
        f.write_str(match self {
            Verdict::Open => "open",
            Verdict::Proved => "proved",
            Verdict::Best => "best",
            Verdict::Refuted => "refuted",
        })
    }
}
