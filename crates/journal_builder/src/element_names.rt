// The element of a name: the elements' names as words, with a hint for each hash of a name.
ghost use Rattle.std.specs.Prelude.{List, ◌≡◌, ℕ, ◌≤◌, ◌<◌, length, get_or};
ghost use Rattle.journal_builder.specs.element_names.Numbers.{element_in};
ghost use Rattle.journal_builder.specs.element_names.Reading.{name_of};
ghost use Rattle.text.specs.name_words.Words.{words_of, Spells};
ghost use Rattle.text_spec.specs.Limits.{max_declarations, max_schema_bytes};
ghost use Rattle.text_spec.specs.Scans.{name_at};

use names::MAX_ELEMENTS;
use text::name_bytes;
use text::name_words::Name;

// How many hashes there are.
pub const HASHES: usize = 256;

// The names of `count` elements, in the order of their declarations. An array with a count, that of the schema: no heap, fixed memory.
#[derive(Drop)]
pub struct ElementNames {
    pub count: usize,
    pub names: [Name; MAX_ELEMENTS],
    // for each hash an element that may have a name of that hash; nothing is promised of it, since a hint is verified
    pub hints: [u8; HASHES],
}

// The element of a number, of which those past all elements are none.
pub fn element_of(number: usize) -> Option<u8>
    ensures { result ≡ element_in number }
{
    if number < MAX_ELEMENTS {
        Some(number as u8)
    } else {
        None
    }
}

// Where to look first for a name.
pub fn hash(name: Name) -> usize
    ensures { result < 256 }
{
    let x = name.a ^ name.b ^ name.c ^ name.d;
    let y = (x ^ (x >> 32)) % 4294967296;
    (y * 2654435769 / 16777216 % 256) as usize
}

// The words of the name at a place.
fn words_at(text: &[u8], p: usize) -> Name
    requires { length text.now ≤ max_schema_bytes }
    ensures { result ≡ words_of (name_at text.now p) }
{
    let mut name = Name::empty();
    let bytes = name_bytes::name_at(text, p);
    for (i, b) in bytes.iter().enumerate() {
        name = name.with(i as u32, *b);
    }
    name
}

// The names at these places.
fn all_names(text: &[u8], places: &[usize; MAX_ELEMENTS], count: usize) -> [Name; MAX_ELEMENTS]
    requires { (0 < count → length text.now ≤ max_schema_bytes) × (count ≤ max_declarations) }
    ensures { (a : ℕ) → a < count → name_of result a ≡ words_of (name_at text.now (get_or places.now a 0)) }
{
    let mut names = [Name::empty(); MAX_ELEMENTS];
    for e in 0..count {
        names[e] = words_at(text, places[e]);
    }
    names
}

// For each hash of a name an element that may have it. Nothing is promised of it: a hint is verified.
pub fn all_hints(names: &[Name; MAX_ELEMENTS], count: usize) -> [u8; HASHES]
    requires { count ≤ max_declarations }
{
    let mut hints = [0u8; HASHES];
    for e in 0..count {
        hints[hash(names[e])] = e as u8;
    }
    hints
}

impl ElementNames {
    ghost use Rattle.journal_builder.specs.element_names.Names.{NamesOf, NameRead};
    ghost use Rattle.schema_spec.specs.Schemas.{Schema, element_named};
    ghost use Rattle.text.specs.lookup.Lookup.{found};

    // The names at these places of a text.
    pub fn read(text: &[u8], places: &[usize; MAX_ELEMENTS], count: usize) -> ElementNames
        requires { (0 < count → length text.now ≤ max_schema_bytes) × (count ≤ max_declarations) }
        ensures { NameRead text.now places.now count result }
    {
        let names = all_names(text, places, count);
        let hints = all_hints(&names, count);
        ElementNames {
            count,
            names,
            hints,
        }
    }

    // The element of the name, by a scan of all names.
    fn scan(&self, name: Name) -> Option<u8>
        requires { self.now.count ≤ max_declarations }
        ensures { (s : Schema) (n : List ℕ) → NamesOf s self.now → Spells name n → found result ≡ element_named s n }
    {
        for e in 0..self.count {
            if name.same(self.names[e]) {
                return Some(e as u8);
            }
        }
        None
    }

    // The element of the name: the one that the hint tells, if it has the name.
    pub fn find(&self, name: Name) -> Option<u8>
        requires { self.now.count ≤ max_declarations }
        ensures { (s : Schema) (n : List ℕ) → NamesOf s self.now → Spells name n → found result ≡ element_named s n }
    {
        let e = self.hints[hash(name)];
        let i = e as usize;
        if i < self.count && name.same(self.names[i]) {
            return Some(e);
        }
        self.scan(name)
    }
}
