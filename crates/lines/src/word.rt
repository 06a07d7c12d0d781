//! The words with which forms begin.
ghost use Rattle.std.specs.Prelude.{◌≡◌};
ghost use Rattle.lines.specs.Words.{spelt};

/// The word of a form.
#[derive(Clone, Copy)]
pub(crate) enum Word {
    Casebook,
    Places,
    Arc,
    Once,
    Order,
    Budget,
    Seal,
    Claim,
    Price,
    Sample,
    Strike,
    Trim,
    Split,
    Close,
    Offer,
    Verdict,
}

impl Word {
    /// Every word, in the order in which they are tried.
    pub(crate) const ALL: [Word; 16] = [
        Word::Casebook,
        Word::Places,
        Word::Arc,
        Word::Once,
        Word::Order,
        Word::Budget,
        Word::Seal,
        Word::Claim,
        Word::Price,
        Word::Sample,
        Word::Strike,
        Word::Trim,
        Word::Split,
        Word::Close,
        Word::Offer,
        Word::Verdict,
    ];

    /// How the word is written.
    pub(crate) fn spelling(self) -> &'static [u8]
        ensures { result.now ≡ spelt self }
    {
        match self {
            Word::Casebook => b"casebook",
            Word::Places => b"places",
            Word::Arc => b"arc",
            Word::Once => b"once",
            Word::Order => b"order",
            Word::Budget => b"budget",
            Word::Seal => b"seal",
            Word::Claim => b"claim",
            Word::Price => b"price",
            Word::Sample => b"sample",
            Word::Strike => b"strike",
            Word::Trim => b"trim",
            Word::Split => b"split",
            Word::Close => b"close",
            Word::Offer => b"offer",
            Word::Verdict => b"verdict",
        }
    }
}
