#![tactic(auto)]

// Content models as position automata: the names of a model are its positions, numbered from 0, and a set of positions is a word.
pub mod automata;
pub mod fitting;

ghost use Rattle.std.specs.Prelude.{Bool, ◌≡◌, ℕ, ◌+◌, ◌<◌};
ghost use Rattle.models.specs.Building.{EndsOf};
ghost use Rattle.models.specs.Kinds.{content_in};
ghost use Rattle.models.specs.Positions.{size};
ghost use Rattle.schema_spec.specs.Models.{Particle, named, sequence, choice, repeated};
ghost use Rattle.text_spec.specs.Limits.{max_model_names};

use names::bits;
use text::limits;

// How many positions a model may have: the bits of a word.
pub const MAX_POSITIONS: usize = limits::MAX_MODEL_NAMES;

// Where a model may begin and end: first and last positions, and whether it may have no child.
#[derive(Clone, Copy, PartialEq, Eq)]
pub struct Ends {
    pub first: u64,
    pub last: u64,
    pub nullable: bool,
}

impl Ends {
    // Of a name at the position `p`.
    pub fn named(p: usize) -> Ends
        ensures { p < max_model_names → (a : ℕ) → EndsOf p (named a) result }
    {
        let only = bits::with_bit(0, p);
        Ends {
            first: only,
            last: only,
            nullable: false,
        }
    }

    // Of two particles in a row.
    pub fn in_sequence(self, next: Ends) -> Ends
        ensures { (k : ℕ) (p q : Particle ℕ) → EndsOf k p self → EndsOf (k + size p) q next → EndsOf k (sequence p q) result }
    {
        let mut first = self.first;
        if self.nullable {
            first |= next.first;
        }
        let mut last = next.last;
        if next.nullable {
            last |= self.last;
        }
        Ends {
            first,
            last,
            nullable: self.nullable && next.nullable,
        }
    }

    // Of one of two particles.
    pub fn in_choice(self, other: Ends) -> Ends
        ensures { (k : ℕ) (p q : Particle ℕ) → EndsOf k p self → EndsOf (k + size p) q other → EndsOf k (choice p q) result }
    {
        Ends {
            first: self.first | other.first,
            last: self.last | other.last,
            nullable: self.nullable || other.nullable,
        }
    }

    // Of a particle that may repeat or be absent.
    pub fn in_repetition(self, absent: bool) -> Ends
        ensures { (k : ℕ) (m : Bool) (p : Particle ℕ) → EndsOf k p self → EndsOf k (repeated m absent p) result }
    {
        Ends {
            nullable: absent || self.nullable,
            ..self
        }
    }
}

// The content of an element: nothing, character data, or a children model.
#[derive(Clone, Copy, PartialEq, Eq)]
pub enum Content {
    Empty,
    Pcdata,
    Children(Ends),
}

impl Content {
    // By the number of its kind: 1 is character data, 2 a children model with these ends, any other number nothing.
    pub fn of_kind(kind: u8, ends: Ends) -> Content
        ensures { result ≡ content_in kind ends }
    {
        match kind {
            1 => Content::Pcdata,
            2 => Content::Children(ends),
            _ => Content::Empty,
        }
    }
}
