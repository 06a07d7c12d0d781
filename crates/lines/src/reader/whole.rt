//! A whole line.
ghost use Rattle.std.specs.Prelude.{◌≤◌, length, MatchOption};
ghost use Rattle.lines.specs.Forms.{Formed};
ghost use Rattle.lines.specs.Readings.{Says};
ghost use Rattle.lines.specs.Texts.{Halts};
ghost use Rattle.lines.specs.Words.{Body, headed};

use super::Reader;
use crate::form::Form;
use crate::word::Word;

// That a line has at most 4,096 bytes is a clause: the reader's other functions read texts of any length.
impl<'a> Reader<'a> {
    /// The form that the line is.
    pub(crate) fn form(&mut self) -> Option<Form<'a>>
        requires { length self.old.rest.now ≤ 4096 }
        ensures { MatchOption result (Halts Formed self.old.rest.now self.new.rest.now) (λ g. Says self.old.rest.now g) }
    {
        match self.peek()? {
            '(' => {
                self.skip();
                let word = self.word()?;
                self.items(word)
            }
            _ => None,
        }
    }

    /// The items that follow `word`, and so the form.
    fn items(&mut self, word: Word) -> Option<Form<'a>>
        requires { length self.old.rest.now ≤ 4096 }
        ensures { MatchOption result (Halts (Body word) self.old.rest.now self.new.rest.now) (λ g. Says (headed word self.old.rest.now) g) }
    {
        match word {
            Word::Casebook => {
                self.header()?;
                Some(Form::Casebook)
            }
            Word::Places => Some(Form::Places(self.one()?)),
            Word::Arc => Some(Form::Arc(self.arc()?)),
            Word::Once => Some(Form::Once(self.routes()?)),
            Word::Order => {
                let (first, second) = self.two()?;
                Some(Form::Order(first, second))
            }
            Word::Budget => {
                let (limit, entries) = self.budget()?;
                Some(Form::Budget(limit, entries))
            }
            Word::Seal => self.bare(Form::Seal),
            Word::Claim => Some(Form::Claim(self.one()?)),
            Word::Price => Some(Form::Price(self.row()?)),
            Word::Sample => self.bare(Form::Sample),
            Word::Strike => Some(Form::Strike(self.row()?)),
            Word::Trim => self.bare(Form::Trim),
            Word::Split => {
                let (place, routes) = self.split()?;
                Some(Form::Split(place, routes))
            }
            Word::Close => Some(Form::Close(self.row()?)),
            Word::Offer => Some(Form::Offer(self.row()?)),
            Word::Verdict => self.bare(Form::Verdict),
        }
    }
}
