#![tactic(auto)]

// Sets of names: elements and text names, each as the bits of a word, by value.
pub mod bits;
pub mod codes;
pub mod known;
pub mod relations;

ghost use Rattle.std.specs.Prelude.{false, not, ◌&&◌, ◌||◌, ◌↔◌, ◌≡◌, T, ltb};
ghost use Rattle.names.specs.Sets.{member, set_of, every_name, overlap};
ghost use Rattle.schema_spec.specs.Names.{Name, element, text, same_name, has, set_of_word, word_of_set};

use std::ops::{BitAnd, BitOr, BitOrAssign, Sub};
use text::limits;

// How many elements a schema may have.
pub const MAX_ELEMENTS: usize = limits::MAX_DECLARATIONS;

#[derive(Clone, Copy, PartialEq, Eq)]
pub struct NameSet {
    pub elements: u64,
    pub texts: u64,
}

impl NameSet {
    pub fn empty() -> NameSet
        ensures { (n : Name) → member result n ≡ false }
    {
        NameSet {
            elements: 0,
            texts: 0,
        }
    }

    // The set with the element `e` added: unchanged for 64 or more.
    pub fn insert_element(self, e: usize) -> NameSet
        ensures { (n : Name) → member result n ≡ (member self n || (same_name n (element e) && ltb e 64)) }
    {
        NameSet {
            elements: bits::with_bit(self.elements, e),
            ..self
        }
    }

    // The set with the text name of `e` added: unchanged for 64 or more.
    pub fn insert_text(self, e: usize) -> NameSet
        ensures { (n : Name) → member result n ≡ (member self n || (same_name n (text e) && ltb e 64)) }
    {
        NameSet {
            texts: bits::with_bit(self.texts, e),
            ..self
        }
    }

    pub fn has_element(self, e: usize) -> bool
        ensures { result ≡ member self (element e) }
    {
        bits::has_bit(self.elements, e)
    }

    pub fn has_text(self, e: usize) -> bool
        ensures { result ≡ member self (text e) }
    {
        bits::has_bit(self.texts, e)
    }

    pub fn is_empty(self) -> bool
        ensures { T result ↔ ((n : Name) → member self n ≡ false) }
    {
        self == NameSet::empty()
    }

    // Whether some name is in both sets.
    pub fn meets(self, other: NameSet) -> bool
        ensures { result ≡ overlap self other }
    {
        bits::meets(self.elements, other.elements) || bits::meets(self.texts, other.texts)
    }

    // The set that 64 bits hand in: bit e for element e, bit 32 + e for its text name.
    pub fn from_word(word: u64) -> NameSet
        ensures { (n : Name) → member result n ≡ has n (set_of_word every_name word) }
    {
        NameSet {
            elements: word % 4294967296,
            texts: word >> 32,
        }
    }

    // The 64 bits that hand the set back: what is past element 31 has none.
    pub fn to_word(self) -> u64
        ensures { result ≡ word_of_set every_name (set_of every_name self) }
    {
        (self.elements % 4294967296) | ((self.texts % 4294967296) << 32)
    }
}

// The names of both sets.
impl BitOr for NameSet {
    type Output = NameSet;

    ghost bitor_gives = { λ a b r. (n : Name) → member r n ≡ (member a n || member b n) };

    fn bitor(self, other: NameSet) -> NameSet {
        NameSet {
            elements: self.elements | other.elements,
            texts: self.texts | other.texts,
        }
    }
}

impl BitOrAssign for NameSet {
    ghost bitor_assign_gives = { λ a b r. (n : Name) → member r n ≡ (member a n || member b n) };

    fn bitor_assign(&mut self, other: NameSet) {
        *self = *self | other;
    }
}

// What both sets have.
impl BitAnd for NameSet {
    type Output = NameSet;

    ghost bitand_gives = { λ a b r. (n : Name) → member r n ≡ (member a n && member b n) };

    fn bitand(self, other: NameSet) -> NameSet {
        NameSet {
            elements: self.elements & other.elements,
            texts: self.texts & other.texts,
        }
    }
}

// What this set has and the other has not.
impl Sub for NameSet {
    type Output = NameSet;

    ghost sub_gives = { λ a b r. (n : Name) → member r n ≡ (member a n && not (member b n)) };

    fn sub(self, other: NameSet) -> NameSet {
        NameSet {
            elements: self.elements & !other.elements,
            texts: self.texts & !other.texts,
        }
    }
}
