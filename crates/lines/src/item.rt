//! What stands in the lists of a line: numbers, pairs and triples.
ghost use Rattle.std.specs.Prelude.{ℕ, List, decimal};
ghost use Rattle.lines.specs.Forms.{Short, ShortPair, ShortTriple, pair, triple};
ghost use Rattle.lines.specs.Texts.{Free, Takes, Tight};
ghost use Rattle.lines.specs.Items.{ItemLaws, Row, RowOrList};
ghost use Rattle.lines.specs.Laws.{number_laws, pair_laws, triple_laws};

use crate::reader::Reader;

/// A kind of item: how one is written, which are short enough, what may follow one, and how a cursor's text has a list of
/// them.
pub(crate) trait LineItem: Copy {
    ghost text: { Self → List ℕ };

    ghost short: { Self → Type 0 };

    ghost tight: { Self → List ℕ → Type 0 };

    ghost laid: { List Self → List ℕ → Type 0 };

    /// The item that comes next.
    fn read(reader: &mut Reader<'_>) -> Option<Self>
        ensures { Takes text short tight reader.old.rest.now result reader.new.rest.now };

    ghost lawful: { ItemLaws text short tight laid };
}

/// A number of at most ten digits. Routes stand in brackets of their own, the arcs of an offer do not.
impl LineItem for u64 {
    ghost text = { decimal };

    ghost short = { Short };

    ghost tight = { Tight };

    ghost laid = { RowOrList };

    ghost lawful = { number_laws };

    fn read(reader: &mut Reader<'_>) -> Option<u64> {
        reader.number()
    }
}

/// (rule multiplier)
impl LineItem for (u64, i64) {
    ghost text = { pair };

    ghost short = { ShortPair };

    ghost tight = { Free };

    ghost laid = { Row pair };

    ghost lawful = { pair_laws };

    fn read(reader: &mut Reader<'_>) -> Option<(u64, i64)> {
        reader.pair()
    }
}

/// (place route weight)
impl LineItem for (u64, u64, i64) {
    ghost text = { triple };

    ghost short = { ShortTriple };

    ghost tight = { Free };

    ghost laid = { Row triple };

    ghost lawful = { triple_laws };

    fn read(reader: &mut Reader<'_>) -> Option<(u64, u64, i64)> {
        reader.triple()
    }
}
