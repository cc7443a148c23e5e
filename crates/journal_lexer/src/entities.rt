// The entities of a journal as an automaton for all five, a letter at a time.
ghost use Rattle.std.specs.Prelude.{cond, ◌≡◌, eqb, Some, None};
ghost use Rattle.journal_lexer.specs.entities.Rests.{after_ampersand, after_a, rest_after};

// What may still come of an entity. `&lt;` and `&gt;` go on alike, and so do others at their ends.
#[derive(Clone, Copy, PartialEq, Eq)]
pub enum EntityRest {
    // all five, after the `&`
    All,
    // `t;`
    ThenT,
    // `;`
    ThenSemicolon,
    // `mp;` or `pos;`
    ThenMpOrPos,
    // `p;`
    ThenP,
    // `os;`
    ThenOs,
    // `s;`
    ThenS,
    // `uot;`
    ThenUot,
    // `ot;`
    ThenOt,
    // its `;` is read
    Ended,
}

fn after_ampersand(b: u8) -> Option<EntityRest>
    ensures { result ≡ after_ampersand b }
{
    match b {
        b'l' | b'g' => Some(EntityRest::ThenT),
        b'a' => Some(EntityRest::ThenMpOrPos),
        b'q' => Some(EntityRest::ThenUot),
        _ => None,
    }
}

fn after_a(b: u8) -> Option<EntityRest>
    ensures { result ≡ after_a b }
{
    match b {
        b'm' => Some(EntityRest::ThenP),
        b'p' => Some(EntityRest::ThenOs),
        _ => None,
    }
}

fn only(b: u8, expected: u8, next: EntityRest) -> Option<EntityRest>
    ensures { result ≡ cond (eqb b expected) (Some next) None }
{
    if b == expected { Some(next) } else { None }
}

impl EntityRest {
    // What may still come after one byte more; nothing, where the byte cannot.
    pub fn after(self, b: u8) -> Option<EntityRest>
        ensures { result ≡ rest_after self b }
    {
        match self {
            EntityRest::All => after_ampersand(b),
            EntityRest::ThenT => only(b, b't', EntityRest::ThenSemicolon),
            EntityRest::ThenSemicolon => only(b, b';', EntityRest::Ended),
            EntityRest::ThenMpOrPos => after_a(b),
            EntityRest::ThenP => only(b, b'p', EntityRest::ThenSemicolon),
            EntityRest::ThenOs => only(b, b'o', EntityRest::ThenS),
            EntityRest::ThenS => only(b, b's', EntityRest::ThenSemicolon),
            EntityRest::ThenUot => only(b, b'u', EntityRest::ThenOt),
            EntityRest::ThenOt => only(b, b'o', EntityRest::ThenT),
            EntityRest::Ended => None,
        }
    }
}
