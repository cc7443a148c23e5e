// The entry of one element in a compiled schema, from its declaration.
ghost use Rattle.std.specs.Prelude.{◌<◌, length};
ghost use Rattle.compiled_schema.specs.element_entry.Reading.{AtDeclaration, EntryMade};
ghost use Rattle.schema_spec.specs.Records.{schema_in};

use crate::entry_parts;
use crate::entry_parts::ElementEntry;
use names::NameSet;
use schema::declarations;
use text::scanning;

// What a declaration gives: the entry of its element, the names that the element holds, and where the next declaration starts.
#[derive(Drop)]
pub struct DeclaredElement {
    pub entry: ElementEntry,
    pub holds: NameSet,
    pub next: usize,
}

// What the declaration of the element d gives, which stands at `at`. The models before it use n names, and `uses` has the elements of all models.
pub fn declared_element(s: &[u8], uses: &[usize], d: usize, n: usize, at: usize) -> DeclaredElement
    requires { AtDeclaration s.now uses.now d n at × (d < length (schema_in s.now)) }
    ensures { EntryMade s.now uses.now d n result }
{
    // the names that a model uses are resolved already, so a single cell is lent for their places
    let mut unused = [0usize; 1];
    let mut entry = ElementEntry::empty();
    match declarations::declaration(s, at, &mut unused, 0, &mut entry.predecessors) {
        Ok(read) => {
            let model = &uses[n..n + read.n];
            entry_parts::copy_elements(model, &mut entry.elements);
            entry.content = read.content;
            entry.size = read.n;
            DeclaredElement {
                entry,
                holds: entry_parts::held(d, read.content, model),
                next: scanning::skip(s, read.at),
            }
        }
        // an accepted text departs nowhere from the grammar
        Err(_) => DeclaredElement {
            entry: ElementEntry::empty(),
            holds: NameSet::empty(),
            next: at,
        },
    }
}
