//! What follows the word of a form, to the end of the line.
ghost use Rattle.std.specs.Prelude.{◌≡◌, ℕ, List, ◌∷◌, ◌++◌, codes, MatchOption};
ghost use Rattle.lines.specs.Forms.{Short, ShortZ, number};
ghost use Rattle.lines.specs.Texts.{Ends, Halts, Is, Item, Keeps, Limited, Listed, Many, Routes, Triples};
ghost use Rattle.lines.specs.Words.{Ending};
ghost use Rattle.std.specs.Fmt.{signed_decimal};

use super::Reader;
use crate::form::{Form, Items, NumberItems, TripleItems};
use crate::item::LineItem;
use terms::arc::NewArc;

impl<'a> Reader<'a> {
    /// The 1 of the header.
    pub(super) fn header(&mut self) -> Option<()>
        ensures { Ends (Is (codes " 1)")) self.old.rest.now result self.new.rest.now }
    {
        self.literal(b" 1)")
    }

    /// No items: `form` is whole.
    pub(super) fn bare(&mut self, form: Form<'a>) -> Option<Form<'a>>
        ensures { Keeps Ending form.entry self.old.rest.now result self.new.rest.now }
    {
        self.finish()?;
        Some(form)
    }

    /// One number.
    pub(super) fn one(&mut self) -> Option<u64>
        ensures { MatchOption result (Halts (Item Ending) self.old.rest.now self.new.rest.now) (λ n. Short n × (self.old.rest.now ≡ number n ++ codes ")")) }
    {
        let n = self.item()?;
        self.finish()?;
        Some(n)
    }

    /// Two numbers.
    pub(super) fn two(&mut self) -> Option<(u64, u64)>
        ensures { MatchOption result (Halts (Item (Item Ending)) self.old.rest.now self.new.rest.now) (λ x. Short x.0 × Short x.1 × (self.old.rest.now ≡ number x.0 ++ (number x.1 ++ codes ")"))) }
    {
        let first = self.item()?;
        let second = self.one()?;
        Some((first, second))
    }

    /// The five numbers of an arc.
    pub(super) fn arc(&mut self) -> Option<NewArc>
        ensures { MatchOption result (Halts (Item (Item (Item (Item (Item Ending))))) self.old.rest.now self.new.rest.now) (λ a. Short a.place × Short a.start × Short a.end × Short a.route × Short a.minutes × (self.old.rest.now ≡ number a.place ++ (number a.start ++ (number a.end ++ (number a.route ++ (number a.minutes ++ codes ")")))))) }
    {
        let place = self.item()?;
        let start = self.item()?;
        let end = self.item()?;
        let (route, minutes) = self.two()?;
        Some(NewArc {
            place,
            start,
            end,
            route,
            minutes,
        })
    }

    /// Items, each after a blank, the bracket that ends them, and then `after` to the end of the line.
    fn many<T: LineItem>(&mut self, after: &[u8]) -> Option<()>
        ensures { Ends (Many T.text T.short (41 ∷ after.now)) self.old.rest.now result self.new.rest.now }
    {
        // Until the text says stop: no index is counted.
        loop {
            match self.peek()? {
                ' ' => {
                    self.skip();
                    T::read(self)?;
                }
                ')' => {
                    self.skip();
                    return self.literal(after);
                }
                _ => return None,
            }
        }
    }

    /// Items, each after a blank, to the end of the line.
    pub(super) fn row<T: LineItem>(&mut self) -> Option<Items<'a, T>>
        ensures { MatchOption result (Halts (Many T.text T.short (codes ")")) self.old.rest.now self.new.rest.now) (λ c. Many T.text T.short (codes ")") c.text.now × (c.text.now ≡ self.old.rest.now)) }
    {
        let items = Items::new(self.rest);
        self.many::<T>(b"")?;
        Some(items)
    }

    /// Numbers with blanks between, the bracket that ends them and the one that ends the line.
    fn list(&mut self) -> Option<()>
        ensures { Ends Listed self.old.rest.now result self.new.rest.now }
    {
        match self.peek()? {
            ')' => {
                self.skip();
                self.finish()
            }
            _ => {
                self.number()?;
                self.many::<u64>(b")")
            }
        }
    }

    /// Numbers in brackets of their own.
    pub(super) fn routes(&mut self) -> Option<NumberItems<'a>>
        ensures { MatchOption result (Halts Routes self.old.rest.now self.new.rest.now) (λ c. (t : List ℕ) × Listed t × (c.text.now ≡ 40 ∷ t) × (self.old.rest.now ≡ 32 ∷ c.text.now)) }
    {
        self.blank()?;
        let routes = Items::new(self.rest);
        self.pass('(')?;
        self.list()?;
        Some(routes)
    }

    /// A place, and routes in brackets of their own.
    pub(super) fn split(&mut self) -> Option<(u64, NumberItems<'a>)>
        ensures { MatchOption result (Halts (Item Routes) self.old.rest.now self.new.rest.now) (λ x. Short x.0 × ((t : List ℕ) × Listed t × (x.1.text.now ≡ 40 ∷ t) × (self.old.rest.now ≡ number x.0 ++ (32 ∷ x.1.text.now)))) }
    {
        let place = self.item()?;
        let routes = self.routes()?;
        Some((place, routes))
    }

    /// The limit and the entries of a budget.
    pub(super) fn budget(&mut self) -> Option<(i64, TripleItems<'a>)>
        ensures { MatchOption result (Halts Limited self.old.rest.now self.new.rest.now) (λ x. ShortZ x.0 × Triples x.1.text.now × (self.old.rest.now ≡ 32 ∷ (signed_decimal x.0 ++ x.1.text.now))) }
    {
        self.blank()?;
        let limit = self.signed()?;
        let entries = self.row()?;
        Some((limit, entries))
    }
}
