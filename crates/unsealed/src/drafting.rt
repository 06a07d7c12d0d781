//! A dossier that is still drafted.
ghost use Rattle.std.specs.Prelude.{◌≡◌};
ghost use Rattle.charts.specs.Drafts.{places_of, arcs_of};
ghost use Rattle.lines.specs.Forms.{Form as Said};
ghost use Rattle.lines.specs.Readings.{Means};
ghost use Rattle.unsealed.specs.Books.{book_of};
ghost use Rattle.unsealed.specs.Replies.{Replies};
ghost use Rattle.unsealed.specs.Stages.{drafted_of, new_drafted, on_places, on_begun, on_unbegun, on_form};

use crate::book::RuleBook;
use charts::chart::{Chart, Draft};
use lines::form::Form;
use terms::refusal::Refusal;

/// What an accepted line of a draft is answered.
#[derive(Clone, Copy, Drop)]
pub enum Step {
    /// How many, or which: a number of places or rules, an arc's number, or 0 for the header.
    Counts(usize),
    /// The draft is to be sealed.
    Seals,
}

/// A dossier that is still drafted: whether its header was accepted, its chart and its rules so far. A flag says the former:
/// one whose header is missing can be sealed all the same, so it has a chart and rules too.
#[derive(Drop)]
pub struct Drafting {
    begun: bool,
    draft: Draft,
    book: RuleBook,
}

impl Drafting {
    /// A dossier of which nothing was read.
    pub fn new() -> Drafting
        ensures { drafted_of result ≡ new_drafted }
    {
        Drafting {
            begun: false,
            draft: Draft::new(),
            book: RuleBook::new(),
        }
    }

    /// Sets the number of places. Answers it.
    fn places(&mut self, n: u64) -> Result<Step, Refusal>
        ensures reply { result ≡ (on_places (drafted_of self.old) n).answer }
        ensures left { drafted_of self.new ≡ (on_places (drafted_of self.old) n).left }
    {
        if n < 1 || n > 32 {
            return Err(Refusal::PlacesRange);
        }
        if self.book.limit.is_some() {
            return Err(Refusal::PlacesLate);
        }
        self.draft.places(n)?;
        // There is no `From` of `u64` for `usize`.
        Ok(Step::Counts(n as usize))
    }

    /// What a form is answered once the header was accepted.
    fn go_on(&mut self, form: Form) -> Result<Step, Refusal>
        ensures reply { (f : Said) → Means form.entry f → result ≡ (on_begun (drafted_of self.old) f).answer }
        ensures left { (f : Said) → Means form.entry f → drafted_of self.new ≡ (on_begun (drafted_of self.old) f).left }
    {
        match form {
            Form::Places(n) => self.places(n),
            Form::Arc(new) => self.draft.arc(new).map(Step::Counts),
            Form::Once(items) => self.book.once(items).map(Step::Counts),
            Form::Order(earlier, later) => self.book.order(earlier, later).map(Step::Counts),
            Form::Budget(limit, items) => {
                let places = self.draft.place_count();
                self.book.budget(places, limit, items).map(Step::Counts)
            }
            Form::Seal => Ok(Step::Seals),
            _ => Err(Refusal::NotHere),
        }
    }

    /// What a form is answered until the header is accepted: only the header is allowed.
    fn begin(&mut self, form: Form) -> Result<Step, Refusal>
        ensures reply { (f : Said) → Means form.entry f → result ≡ (on_unbegun (drafted_of self.old) f).answer }
        ensures left { (f : Said) → Means form.entry f → drafted_of self.new ≡ (on_unbegun (drafted_of self.old) f).left }
    {
        let Form::Casebook = form else {
            return Err(Refusal::NotHere);
        };
        self.begun = true;
        // The header is answered 0, as the format wants.
        Ok(Step::Counts(0))
    }

    /// What a form is answered.
    pub fn take(&mut self, form: Form) -> Result<Step, Refusal>
        ensures reply { (f : Said) → Means form.entry f → result ≡ (on_form (drafted_of self.old) f).answer }
        ensures left { (f : Said) → Means form.entry f → drafted_of self.new ≡ (on_form (drafted_of self.old) f).left }
    {
        if self.begun {
            self.go_on(form)
        } else {
            self.begin(form)
        }
    }

    /// What a line is answered. The header is a fixed text.
    pub fn line(&mut self, line: &[u8]) -> Result<Step, Refusal>
        ensures { Replies (on_form (drafted_of self.old)) (drafted_of self.old) line.now result (drafted_of self.new) }
    {
        if lines::is_header(line) {
            return self.take(Form::Casebook);
        }
        let form = lines::read(line)?;
        self.take(form)
    }

    /// Seals the chart: the dossier is moved into its chart, and its rules.
    pub fn seal(self) -> (Chart, RuleBook)
        ensures places { places_of result.0 ≡ (drafted_of self).layout.places }
        ensures arcs { arcs_of result.0 ≡ (drafted_of self).layout.arcs }
        ensures book { book_of result.1 ≡ (drafted_of self).book }
    {
        let Drafting {
            begun: _,
            draft,
            book,
        } = self;
        (draft.seal(), book)
    }
}
