//! What a kind of tally is.
ghost use Rattle.std.specs.Prelude.{◌≡◌, ℕ, ◌<◌, false, ◌⊎◌, ◌↔◌, ℤ, IsTrue, unsigned_abs};
ghost use Rattle.tallies.specs.Laws.{TallyLaws, wide};

/// A kind of tally: its sort of amount, the amounts of "no plan" and of the empty plan, the joining of two
/// amounts, and the extension of an amount by an arc's price.
pub trait Tally {
    type Amount: Copy;

    ghost nothing: { Self.Amount };

    ghost start: { Self.Amount };

    ghost joins: { Self.Amount → Self.Amount → Self.Amount };

    ghost extends: { Self.Amount → ℤ → Self.Amount };

    ghost size: { Self.Amount → ℕ };

    /// The amount of "no plan". A function, since a constant's value calls none: an amount may come from its type's own call.
    fn no_plan() -> Self::Amount
        ensures { result ≡ nothing };

    /// The amount of the empty plan.
    fn empty_plan() -> Self::Amount
        ensures { result ≡ start };

    /// The joining of two amounts.
    fn join(a: Self::Amount, b: Self::Amount) -> Self::Amount
        ensures { result ≡ joins a b };

    /// The extension of an amount by an arc's price.
    fn extend(a: Self::Amount, price: i64) -> Self::Amount
        requires { (size a < wide) × (unsigned_abs price < wide) }
        ensures { result ≡ extends a price };

    // What every kind owes.
    ghost lawful: { TallyLaws nothing start joins extends size };
}

/// A tally whose joining is always one of the two.
pub trait Choosing: Tally {
    /// Whether the joining of two amounts is the first; if not, it is the second.
    fn first(a: Self::Amount, b: Self::Amount) -> bool
        ensures told { IsTrue result ↔ (Self.joins a b ≡ a) }
        ensures other { result ≡ false → Self.joins a b ≡ b };

    // So the joining is one of the two, whatever they are.
    ghost chooses: { (x y : Self.Amount) → (Self.joins x y ≡ x) ⊎ (Self.joins x y ≡ y) };
}
