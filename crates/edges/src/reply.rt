//! What a call replies, in one form for every call.
use std::fmt;
use terms::refusal::Refusal;
use terms::verdict::Verdict;

/// What an accepted call answers. A dossier's answer is another: it holds the plan that a sample wrote.
#[derive(Clone, Copy, PartialEq, Eq)]
pub enum Answer {
    /// A number of cases, arcs, rules or minutes.
    Number(usize),
    /// A priced amount.
    Amount(i64),
    /// A plan was written.
    Found,
    /// No plan stands.
    NoPlan,
    /// What is said of the claim.
    Said(Verdict),
}

/// An answer, or why there is none.
#[derive(Clone, Copy, PartialEq, Eq)]
pub struct Reply(pub Result<Answer, Refusal>);

/// Of a call that answers how many.
impl From<Result<usize, Refusal>> for Reply {
    fn from(res: Result<usize, Refusal>) -> Reply {
        Reply(res.map(Answer::Number))
    }
}

/// Of the number of places.
impl From<Result<u64, Refusal>> for Reply {
    fn from(res: Result<u64, Refusal>) -> Reply {
        // There is no `From` of `u64` for `usize`.
        Reply(res.map(|places| Answer::Number(places as usize)))
    }
}

/// Of an offer.
impl From<Result<u32, Refusal>> for Reply {
    fn from(res: Result<u32, Refusal>) -> Reply {
        // There is no `From` of `u32` for `usize`.
        Reply(res.map(|minutes| Answer::Number(minutes as usize)))
    }
}

/// Of a price.
impl From<Result<Option<i64>, Refusal>> for Reply {
    fn from(res: Result<Option<i64>, Refusal>) -> Reply {
        Reply(res.map(|least| least.map_or(Answer::NoPlan, Answer::Amount)))
    }
}

/// Of a sample.
impl From<Result<bool, Refusal>> for Reply {
    fn from(res: Result<bool, Refusal>) -> Reply {
        Reply(res.map(|found| if found { Answer::Found } else { Answer::NoPlan }))
    }
}

/// Of a verdict.
impl From<Verdict> for Reply {
    fn from(verdict: Verdict) -> Reply {
        Reply(Ok(Answer::Said(verdict)))
    }
}

impl fmt::Display for Answer {
    fn fmt<W: fmt::Write>(&self, f: &mut fmt::Formatter<W>) -> fmt::Result {
        match self {
            Answer::Number(number) => write!(f, "ok {number}"),
            Answer::Amount(amount) => write!(f, "ok {amount}"),
            Answer::Found => write!(f, "ok"),
            Answer::NoPlan => write!(f, "ok none"),
            Answer::Said(verdict) => write!(f, "ok {verdict}"),
        }
    }
}

impl fmt::Display for Reply {
    fn fmt<W: fmt::Write>(&self, f: &mut fmt::Formatter<W>) -> fmt::Result {
        match self.0 {
            Ok(answer) => write!(f, "{answer}"),
            Err(refusal) => write!(f, "no {refusal}"),
        }
    }
}
