// Sets that are handed in, cut to the names of a schema.
ghost use Rattle.std.specs.Prelude.{◌≡◌, ◌≤◌, length};
ghost use Rattle.names.specs.Sets.{set_in, NamesOf, Known};
ghost use Rattle.schema_spec.specs.Names.{names_of, set_of_word};
ghost use Rattle.schema_spec.specs.Schemas.{Schema};
ghost use Rattle.text_spec.specs.Limits.{max_declarations};

use crate::NameSet;

// The set that 64 bits hand in, without the bits that are no names of the schema.
pub fn handed_in(word: u64, all: NameSet) -> NameSet
    ensures { (s : Schema) → length s ≤ max_declarations → NamesOf s all → (set_in s result ≡ set_of_word (names_of s) word) × Known s result }
{
    NameSet::from_word(word) & all
}
