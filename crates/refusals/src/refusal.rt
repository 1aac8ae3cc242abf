// Why a call turns back what it was lent. Names and numbers: document 01, 'Turned back, by whoever caused it'.
ghost use Rattle.std.specs.Prelude.{◌≡◌};
ghost use Rattle.refusals.specs.Refusal.{refusal_number};

// Later refusals change no match of another crate: it has an arm for the rest, and goes by the number.
#[derive(Clone, Copy, PartialEq, Eq)]
#[non_exhaustive]
pub enum Refusal {
    LongText,
    NotAscii,
    ShortList,
    UnknownKind,
    SpanPastText,
    SpaceAfterSpace,
    ShortTable,
    ShortWork,
    ShortTree,
    ShortPrint,
    NoMathml,
    ShortMathml,
}

impl Refusal {
    // The number by which it is known in C, and to the buyer.
    pub fn number(self) -> u8
        ensures { result ≡ refusal_number self }
    {
        match self {
            Refusal::LongText => 1,
            Refusal::NotAscii => 2,
            Refusal::ShortList => 3,
            Refusal::UnknownKind => 4,
            Refusal::SpanPastText => 5,
            Refusal::SpaceAfterSpace => 6,
            Refusal::ShortTable => 7,
            Refusal::ShortWork => 8,
            Refusal::ShortTree => 9,
            Refusal::ShortPrint => 10,
            Refusal::NoMathml => 11,
            Refusal::ShortMathml => 12,
        }
    }
}
