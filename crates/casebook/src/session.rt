//! A dossier, from its first line to its last.
use crate::input::Lines;
use crate::output::Gathered;
use crate::summary::Summary;
use casebooks::casebook::Casebook;
use charts::chart::Chart;
use dossiers::answer::Answer;
use dossiers::working;
use rules::bank::Bank;
use std::io;
use std::io::{Read, Write};
use terms::refusal::Refusal;
use unsealed::book::RuleBook;
use unsealed::drafting::{Drafting, Step};

/// The lines of a dossier, the replies to them, and what was done.
#[derive(Drop)]
pub struct Session<R, W> {
    lines: Lines<R>,
    out: Gathered<W>,
    summary: Summary,
}

impl<R: Read, W: Write> Session<R, W> {
    /// Nothing read yet.
    pub fn new(input: R, output: W) -> Session<R, W> {
        Session {
            lines: Lines::new(input),
            out: Gathered::new(output),
            summary: Summary::default(),
        }
    }

    /// Writes the reply to a line, and counts it.
    fn reply(&mut self, reply: Result<Answer, Refusal>) -> io::Result<()> {
        let number = self.summary.count(&reply);
        match reply {
            Ok(answer) => writeln!(self.out, "{number} ok {answer}"),
            Err(refusal) => writeln!(self.out, "{number} no {refusal}"),
        }
    }

    /// Reads lines until the draft is sealed: its chart and its rules, if it was.
    pub fn draft(&mut self) -> io::Result<Option<(Chart, RuleBook)>> {
        let mut drafting = Drafting::new();
        // Counted, since the program has no leave to wait for ever.
        for _ in 0..u64::MAX {
            let Some(line) = self.lines.next(&mut self.out)? else {
                return Ok(None);
            };
            match drafting.line(line) {
                Ok(Step::Seals) => return Ok(Some(drafting.seal())),
                Ok(Step::Counts(n)) => self.reply(Ok(Answer::Count(n)))?,
                // A step is no answer, so the error is put into another type.
                Err(refusal) => self.reply(Err(refusal))?,
            }
        }
        Ok(None)
    }

    /// Replies to the seal of a chart.
    pub fn seal(&mut self, chart: &Chart) -> io::Result<()> {
        let arcs = chart.count();
        self.summary.arcs = arcs;
        self.reply(Ok(Answer::Count(arcs)))
    }

    /// Reads the lines after the seal.
    pub fn judge<B: Bank>(&mut self, book: &mut Casebook<B>) -> io::Result<()> {
        // Counted, since the program has no leave to wait for ever.
        for _ in 0..u64::MAX {
            let Some(line) = self.lines.next(&mut self.out)? else {
                break;
            };
            let reply = working::line(book, line);
            self.reply(reply)?;
        }
        Ok(())
    }

    /// Hands on what was written, and says what was done.
    pub fn finish(&mut self, rt: &impl Eprint) -> io::Result<()> {
        self.out.flush()?;
        let summary = &self.summary;
        eprintln!(rt; "casebook: {summary}")
    }
}
