//! What was done, in one sentence.
use dossiers::answer::Answer;
use std::fmt;
use terms::refusal::Refusal;
use terms::verdict::Verdict;

/// What was done.
#[derive(Default, Drop)]
pub struct Summary {
    lines: u64,
    accepted: u64,
    refused: u64,
    pub arcs: usize,
    verdict: Option<Verdict>,
}

impl Summary {
    /// Counts the reply to a line. Answers the line's number.
    pub fn count(&mut self, reply: &Result<Answer, Refusal>) -> u64 {
        self.lines = self.lines.saturating_add(1);
        match reply {
            Ok(answer) => {
                self.accepted = self.accepted.saturating_add(1);
                if let Answer::Word(verdict) = answer {
                    self.verdict = Some(*verdict);
                }
            }
            Err(_) => self.refused = self.refused.saturating_add(1),
        }
        self.lines
    }
}

impl fmt::Display for Summary {
    fn fmt<W: fmt::Write>(&self, f: &mut fmt::Formatter<W>) -> fmt::Result {
        let Summary {
            lines,
            accepted,
            refused,
            arcs,
            verdict,
        } = self;
        write!(
            f,
            "{lines} lines, {accepted} accepted, {refused} refused, {arcs} arcs, "
        )?;
        match verdict {
            Some(verdict) => write!(f, "last verdict {verdict}"),
            None => f.write_str("no verdict asked"),
        }
    }
}
