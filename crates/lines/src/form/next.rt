//! The items of a form, one after another.
ghost use Rattle.std.specs.Prelude.{◌≡◌, length};
ghost use Rattle.std.specs.Iterator.{at_most};
ghost use Rattle.lines.specs.Cursors.{Gives};

use super::Items;
use crate::item::LineItem;
use crate::reader::Reader;
use std::marker::PhantomData;

impl<'a, T> Items<'a, T> {
    /// A cursor over the items that `text` has.
    pub(crate) fn new(text: &'a [u8]) -> Items<'a, T>
        ensures { result.text.now ≡ text.now }
    {
        Items {
            text,
            item: PhantomData,
        }
    }
}

impl<'a, T: LineItem> Iterator for Items<'a, T> {
    type Item = T;

    ghost next_gives = { Gives T.short T.laid };

    ghost remaining = { λ c. at_most (length c.text.now) };

    /// The next item.
    fn next(&mut self) -> Option<T> {
        let mut reader = Reader::new(self.text);
        reader.skip();
        let item = T::read(&mut reader)?;
        self.text = reader.rest;
        Some(item)
    }
}
