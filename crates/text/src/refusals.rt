// Why a text or a call is turned back: the eighteen reasons, and a refusal, which names a place.
ghost use Rattle.std.specs.Prelude.{◌≡◌};
ghost use Rattle.text.specs.refusals.Refusals.{reason_in, refusal};
ghost use Rattle.text_spec.specs.Refusals.{number_of};

// In the order of their numbers, 1 to 18. What each means stands in text_spec's Refusals.
#[derive(Clone, Copy, Debug, PartialEq, Eq, PartialOrd, Ord)]
pub enum Reason {
    BadRecord,
    BadLength,
    BadByte,
    BadSchema,
    OverSchemaLimit,
    DeclaredTwice,
    UndeclaredInModel,
    BadPath,
    OverPathLimit,
    UndeclaredInPath,
    Misspelt,
    BadNesting,
    OverDepth,
    UndeclaredElement,
    BadContent,
    OverNodeLimit,
    BadExtract,
    TooFewCells,
}

impl Reason {
    // The number that a host is told.
    pub fn number(self) -> u64
        ensures { result ≡ number_of (reason_in self) }
    {
        match self {
            Reason::BadRecord => 1,
            Reason::BadLength => 2,
            Reason::BadByte => 3,
            Reason::BadSchema => 4,
            Reason::OverSchemaLimit => 5,
            Reason::DeclaredTwice => 6,
            Reason::UndeclaredInModel => 7,
            Reason::BadPath => 8,
            Reason::OverPathLimit => 9,
            Reason::UndeclaredInPath => 10,
            Reason::Misspelt => 11,
            Reason::BadNesting => 12,
            Reason::OverDepth => 13,
            Reason::UndeclaredElement => 14,
            Reason::BadContent => 15,
            Reason::OverNodeLimit => 16,
            Reason::BadExtract => 17,
            Reason::TooFewCells => 18,
        }
    }
}

// A reason and a byte offset, 0 where none is named. By the derived order the lesser of two refusals is the one that comes first.
#[derive(Clone, Copy, Debug, PartialEq, Eq, PartialOrd, Ord)]
pub struct Refusal {
    pub reason: Reason,
    pub place: usize,
}

impl Refusal {
    pub fn at(reason: Reason, place: usize) -> Refusal
        ensures { result ≡ refusal reason place }
    {
        Refusal { reason, place }
    }

    // A refusal that names no place.
    pub fn of(reason: Reason) -> Refusal
        ensures { result ≡ refusal reason 0 }
    {
        Refusal { reason, place: 0 }
    }
}
