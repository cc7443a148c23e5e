// The kinds of bytes that a journal's lexer tells apart, and the table of all of them.
ghost use Rattle.std.specs.Prelude.{◌≡◌};
ghost use Rattle.journal_lexer.specs.kinds.Kinds.{continues_name_kind, is_plain_kind, kind_of, delimiter_kind, KindTable};
ghost use Rattle.journal_lexer.specs.kinds.Numbers.{kind_in, KindReads};

#[derive(Clone, Copy, PartialEq, Eq)]
pub enum ByteKind {
    Letter,
    Digit,
    Blank,
    Other,
    Slash,
    Greater,
    Less,
    Ampersand,
    Bracket,
    Foreign,
}

impl ByteKind {
    #[tactic(auto, unfolding(crate::specs::kinds::Numbers::kind_in))]
    fn numbered(number: u8) -> ByteKind
        ensures { result ≡ kind_in number }
    {
        match number {
            0 => ByteKind::Letter,
            1 => ByteKind::Digit,
            2 => ByteKind::Blank,
            4 => ByteKind::Slash,
            5 => ByteKind::Greater,
            6 => ByteKind::Less,
            7 => ByteKind::Ampersand,
            8 => ByteKind::Bracket,
            9 => ByteKind::Foreign,
            _ => ByteKind::Other,
        }
    }

    // The kind of a number. Past the last a kind reads as any other byte, as `Numbers` says of each.
    pub fn from_number(number: u8) -> ByteKind
        ensures kind { result ≡ kind_in number }
        ensures reads { KindReads number result }
    {
        ByteKind::numbered(number)
    }

    // Whether a name goes on with such a byte.
    pub fn continues_name(self) -> bool
        ensures { result ≡ continues_name_kind self }
    {
        matches!(self, ByteKind::Letter | ByteKind::Digit)
    }

    // Whether such a byte is read alone and leaves character data that is not all blanks as it is, where no `]]` stands before it.
    pub fn is_plain(self) -> bool
        ensures { result ≡ is_plain_kind self }
    {
        matches!(
            self,
            ByteKind::Letter
                | ByteKind::Digit
                | ByteKind::Blank
                | ByteKind::Other
                | ByteKind::Slash
                | ByteKind::Greater
        )
    }
}

fn delimiter_kind(b: u8) -> ByteKind
    ensures { result ≡ delimiter_kind b }
{
    match b {
        b'/' => ByteKind::Slash,
        b'>' => ByteKind::Greater,
        b'<' => ByteKind::Less,
        b'&' => ByteKind::Ampersand,
        b']' => ByteKind::Bracket,
        _ => ByteKind::Other,
    }
}

#[tactic(auto, unfolding(crate::specs::kinds::Kinds::kind_of))]
pub fn kind_of(b: u8) -> ByteKind
    ensures { result ≡ kind_of b }
{
    if text::starts_name(b) {
        return ByteKind::Letter;
    }
    if text::continues_name(b) {
        return ByteKind::Digit;
    }
    if text::is_blank(b) {
        return ByteKind::Blank;
    }
    if text::is_foreign(b) {
        return ByteKind::Foreign;
    }
    delimiter_kind(b)
}

// The kind of each byte, made once for a journal and lent: a match on the byte in the loop costs a fourth of the speed.
pub fn all_kinds() -> [ByteKind; 256]
    ensures { KindTable result }
{
    let mut kinds = [ByteKind::Letter; 256];
    for b in 0..256 {
        kinds[b] = kind_of(b as u8);
    }
    kinds
}
