// What is known of each element of a schema. Elements are numbered in the order of their declarations.
ghost use Rattle.std.specs.Prelude.{◌≡◌, length};
ghost use Rattle.compiled_schema.specs.element_entry.Reading.{AcceptedWith};
ghost use Rattle.compiled_schema.specs.entries.Entries.{ElementsOf};
ghost use Rattle.schema_spec.specs.Records.{schema_in};

use crate::element_entry;
use crate::entry_parts::ElementEntry;
use names::{MAX_ELEMENTS, NameSet};
use text::scanning;

// The entry of each element, and the names that it holds.
// Two arrays and none of pairs, since they are handed on apart: `holds` goes to `Relations`.
#[derive(Drop)]
pub struct Elements {
    pub entries: [ElementEntry; MAX_ELEMENTS],
    pub holds: [NameSet; MAX_ELEMENTS],
}

// The elements of an accepted schema. `uses` has the elements that their models use.
pub fn all_elements(s: &[u8], uses: &[usize], count: usize) -> Elements
    requires { AcceptedWith s.now uses.now × (count ≡ length (schema_in s.now)) }
    ensures { ElementsOf (schema_in s.now) result }
{
    let mut entries = [ElementEntry::empty(); MAX_ELEMENTS];
    let mut holds = [NameSet::empty(); MAX_ELEMENTS];
    let mut at = scanning::skip(s, 0);
    let mut n = 0;
    for d in 0..count {
        let declared = element_entry::declared_element(s, uses, d, n, at);
        n += declared.entry.size;
        at = declared.next;
        holds[d] = declared.holds;
        entries[d] = declared.entry;
    }
    Elements { entries, holds }
}
