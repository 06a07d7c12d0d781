//! The word of a form.
ghost use Rattle.lines.specs.Texts.{Ends, Free, Is, Shared, Takes};
ghost use Rattle.lines.specs.Words.{Any, spelt};

use super::Reader;
use crate::word::Word;

impl Reader<'_> {
    /// The word that comes next. Where there is none, the longest front of one is passed.
    pub(super) fn word(&mut self) -> Option<Word>
        ensures { Takes spelt Any Free self.old.rest.now result self.new.rest.now }
    {
        let mut best = 0;
        for word in Word::ALL {
            let spelling = word.spelling();
            let n = common(self.rest, spelling);
            if n == spelling.len() {
                self.rest = &self.rest[n..];
                return Some(word);
            }
            best = best.max(n);
        }
        self.rest = &self.rest[best..];
        None
    }

    /// The text `text`, and the end of the line.
    pub(super) fn literal(&mut self, text: &[u8]) -> Option<()>
        ensures { Ends (Is text.now) self.old.rest.now result self.new.rest.now }
    {
        let n = common(self.rest, text);
        self.rest = &self.rest[n..];
        if n == text.len() { self.end() } else { None }
    }
}

/// How many bytes the two have in common at the front.
fn common(text: &[u8], word: &[u8]) -> usize
    ensures { Shared text.now word.now result }
{
    text.iter().zip(word).take_while(|(a, b)| a == b).count()
}
