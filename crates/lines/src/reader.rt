//! Reads a line from front to back. A reading function passes what it expects; where that is not there, it answers
//! `None` and stands before the first byte that cannot follow.
mod body;
mod entry;
mod whole;
mod wording;

ghost use Rattle.std.specs.Prelude.{◌≡◌, ◌+◌, ◌-◌, ◌^◌, ◌<◌, ◌≤◌, ◌⊎◌, [], ◌∷◌, length, drop, codes, MatchBool, MatchOption};
ghost use Rattle.lines.specs.Forms.{ShortZ};
ghost use Rattle.lines.specs.Texts.{Counts, Digit, Ends, Is, Open, Passes, Sees, Takes, TightZ, ahead};
ghost use Rattle.std.specs.Fmt.{signed_decimal};

/// What is left of a line.
#[derive(Drop)]
pub(crate) struct Reader<'a> {
    pub(crate) rest: &'a [u8],
}

impl<'a> Reader<'a> {
    /// A reader of all of `line`.
    pub(crate) fn new(line: &'a [u8]) -> Reader<'a>
        ensures { result.rest.now ≡ line.now }
    {
        Reader { rest: line }
    }
}

impl Reader<'_> {
    /// The place in `line`, from 1, of the next byte.
    pub(crate) fn place(&self, line: &[u8]) -> u16
        requires { (length self.now.rest.now ≤ length line.now) × (length line.now ≤ 4096) }
        ensures { result ≡ length line.now - length self.now.rest.now + 1 }
    {
        // At most 4,097, since a line that is read has 4,096 bytes or fewer.
        (line.len() - self.rest.len() + 1) as u16
    }

    /// The next character, if there is one.
    fn peek(&self) -> Option<char>
        ensures { Sees self.now.rest.now result }
    {
        self.rest.first().map(|byte| char::from(*byte))
    }

    /// Passes one character.
    pub(crate) fn skip(&mut self)
        ensures { self.new.rest.now ≡ drop 1 self.old.rest.now }
    {
        if let Some((_, rest)) = self.rest.split_first() {
            self.rest = rest;
        }
    }

    /// Passes the character `want`. Where it is not there, the reader stands before the byte that is impossible; an error would
    /// have no more to say than `None`.
    fn pass(&mut self, want: char) -> Option<()>
        requires { 0 < want }
        ensures { Passes want self.old.rest.now result self.new.rest.now }
    {
        if self.peek()? == want {
            self.skip();
            Some(())
        } else {
            None
        }
    }

    /// Passes the one blank before an item.
    fn blank(&mut self) -> Option<()>
        ensures { Passes 32 self.old.rest.now result self.new.rest.now }
    {
        self.pass(' ')
    }

    /// The end of the line.
    fn end(&mut self) -> Option<()>
        ensures { Ends (Is []) self.old.rest.now result self.new.rest.now }
    {
        self.rest.is_empty().then_some(())
    }

    /// The bracket that ends a form, and the end of the line.
    fn finish(&mut self) -> Option<()>
        ensures { Ends (Is (codes ")")) self.old.rest.now result self.new.rest.now }
    {
        self.pass(')')?;
        self.end()
    }

    /// A number of at most ten digits, with no idle zero.
    pub(crate) fn number(&mut self) -> Option<u64>
        ensures { Counts self.old.rest.now result self.new.rest.now }
    {
        let mut n = self.digit()?;
        // Until the digits say stop: no index is counted.
        while grows(n) {
            let Some(d) = self.digit() else {
                return Some(n);
            };
            n = n * 10 + d;
        }
        Some(n)
    }

    /// A digit.
    fn digit(&mut self) -> Option<u64>
        ensures { MatchOption result ((self.new.rest.now ≡ self.old.rest.now) × Open self.old.rest.now) (λ d. Digit (48 + d) × (self.old.rest.now ≡ (48 + d) ∷ self.new.rest.now)) }
    {
        // Characters as cases, as everywhere in the reader.
        match self.peek()? {
            c @ '0'..='9' => {
                self.skip();
                Some(u64::from(c) - u64::from('0'))
            }
            _ => None,
        }
    }

    /// A number with an optional minus, which never stands before 0.
    fn signed(&mut self) -> Option<i64>
        ensures { Takes signed_decimal ShortZ TightZ self.old.rest.now result self.new.rest.now }
    {
        // A number of ten digits fits; there is no `From` of `u64` for `i64`.
        match self.peek()? {
            '-' => {
                self.skip();
                if !self.leads() {
                    return None;
                }
                let n = self.number()?;
                Some(-(n as i64))
            }
            _ => {
                let n = self.number()?;
                Some(n as i64)
            }
        }
    }

    /// Whether a number that a minus stands before can begin with the next character.
    fn leads(&self) -> bool
        ensures { MatchBool result ((49 ≤ ahead self.now.rest.now) × (ahead self.now.rest.now ≤ 57)) (49 ≤ ahead self.now.rest.now → ahead self.now.rest.now ≤ 57 → ⊥) }
    {
        matches!(self.peek(), Some('1'..='9'))
    }
}

/// Whether one more digit may follow those of `n`: it is not 0, and has fewer than ten.
fn grows(n: u64) -> bool
    ensures { MatchBool result ((0 < n) × (n < 10 ^ 9)) ((n ≡ 0) ⊎ (10 ^ 9 ≤ n)) }
{
    (1..1_000_000_000).contains(&n)
}
