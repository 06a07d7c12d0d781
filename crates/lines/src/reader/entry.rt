//! The items of a form: numbers, pairs and triples.
ghost use Rattle.lines.specs.Forms.{Short, ShortPair, ShortTriple, ShortZ, amount, number, pair, triple};
ghost use Rattle.lines.specs.Texts.{Free, Takes, Tight};

use super::Reader;

impl Reader<'_> {
    /// A number after a blank.
    pub(super) fn item(&mut self) -> Option<u64>
        ensures { Takes number Short Tight self.old.rest.now result self.new.rest.now }
    {
        self.blank()?;
        self.number()
    }

    /// A signed number after a blank, and the bracket that ends its entry.
    fn amount(&mut self) -> Option<i64>
        ensures { Takes amount ShortZ Free self.old.rest.now result self.new.rest.now }
    {
        self.blank()?;
        let amount = self.signed()?;
        self.pass(')')?;
        Some(amount)
    }

    /// (rule multiplier)
    pub(crate) fn pair(&mut self) -> Option<(u64, i64)>
        ensures { Takes pair ShortPair Free self.old.rest.now result self.new.rest.now }
    {
        self.pass('(')?;
        let rule = self.number()?;
        let multiplier = self.amount()?;
        Some((rule, multiplier))
    }

    /// (place route weight)
    pub(crate) fn triple(&mut self) -> Option<(u64, u64, i64)>
        ensures { Takes triple ShortTriple Free self.old.rest.now result self.new.rest.now }
    {
        self.pass('(')?;
        let place = self.number()?;
        let route = self.item()?;
        let weight = self.amount()?;
        Some((place, route, weight))
    }
}
