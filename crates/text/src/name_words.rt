// Names of at most 31 bytes as four words, by value.
ghost use Rattle.std.specs.Prelude.{List, [], ◌∷◌, ◌++◌, ◌≡◌, ℕ, length};
ghost use Rattle.text_spec.specs.Lists.{same_bytes};
ghost use Rattle.text.specs.name_words.Words.{words_of, Spells};

// The bytes in groups of eight, the last group in `a` as a number to the base 256, the group before it in `b`, and so on.
#[derive(Clone, Copy)]
pub struct Name {
    pub a: u64,
    pub b: u64,
    pub c: u64,
    pub d: u64,
}

impl Name {
    pub fn empty() -> Name
        ensures { result ≡ words_of [] }
    {
        Name {
            a: 0,
            b: 0,
            c: 0,
            d: 0,
        }
    }

    // The name of one byte.
    pub fn first(x: u8) -> Name
        ensures { result ≡ words_of (x ∷ []) }
    {
        Name {
            a: u64::from(x),
            b: 0,
            c: 0,
            d: 0,
        }
    }

    // The name with one byte more, where it has `len` bytes.
    pub fn with(self, len: u32, x: u8) -> Name
        ensures { (n : List ℕ) → self ≡ words_of n → len ≡ length n → result ≡ words_of (n ++ (x ∷ [])) }
    {
        if len % 8 == 0 {
            return Name {
                a: u64::from(x),
                b: self.a,
                c: self.b,
                d: self.c,
            };
        }
        Name {
            a: self.a % 72057594037927936 * 256 + u64::from(x),
            b: self.b,
            c: self.c,
            d: self.d,
        }
    }

    // By exclusive or and no `==` of the fields: one branch for the four words.
    pub fn same(self, other: Name) -> bool
        ensures { (u v : List ℕ) → Spells self u → Spells other v → result ≡ same_bytes u v }
    {
        let x = (self.a ^ other.a) | (self.b ^ other.b) | (self.c ^ other.c) | (self.d ^ other.d);
        x == 0
    }
}
