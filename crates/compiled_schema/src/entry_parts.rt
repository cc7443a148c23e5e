// What is known of one element in a compiled schema, and how it is made of a declaration that was read: its content, its model's cells, and the
// names that the element holds.
ghost use Rattle.std.specs.Prelude.{◌≡◌, ℕ, ◌≤◌, ◌<◌, length, get_or};
ghost use Rattle.std.proofs.lemmas.List.Edits.{sets};
ghost use Rattle.compiled_schema.specs.entry_parts.Entries.{empty_entry, is_one_of, is_held};
ghost use Rattle.names.specs.Sets.{member};
ghost use Rattle.schema_spec.specs.Names.{Name};

use models::{Content, MAX_POSITIONS};
use names::NameSet;

// Two arrays and none of pairs: the parser of the model writes `predecessors` through a slice, and `copy_elements` then `elements`.
#[derive(Clone, Copy)]
pub struct ElementEntry {
    // of a children model where it may begin and end
    pub content: Content,
    // how many positions its model has
    pub size: usize,
    // the element of each position
    pub elements: [u8; MAX_POSITIONS],
    // the positions that each position may come after
    pub predecessors: [u64; MAX_POSITIONS],
}

impl ElementEntry {
    // The entry of an element declared EMPTY.
    pub fn empty() -> ElementEntry
        ensures { result ≡ empty_entry }
    {
        ElementEntry {
            content: Content::Empty,
            size: 0,
            elements: [0; MAX_POSITIONS],
            predecessors: [0; MAX_POSITIONS],
        }
    }
}

// The set of these elements.
fn set_of(elements: &[usize]) -> NameSet
    ensures { (n : Name) → member result n ≡ is_one_of elements.now n }
{
    let mut set = NameSet::empty();
    for e in elements {
        set = set.insert_element(*e);
    }
    set
}

// The names that the element `a` holds: the elements of its model, or its text name.
pub fn held(a: usize, content: Content, model: &[usize]) -> NameSet
    ensures { (n : Name) → member result n ≡ is_held a content model.now n }
{
    let set = set_of(model);
    if matches!(content, Content::Pcdata) {
        set.insert_text(a)
    } else {
        set
    }
}

// Copies the elements of a model into its cells.
// A loop and no `copy_from_slice`: each element is narrowed to a byte.
pub fn copy_elements(model: &[usize], elements: &mut [u8])
    requires { ((i : ℕ) → i < length model.now → get_or model.now i 0 < 256) × (length model.now ≤ length elements.old) }
    ensures { elements.new ≡ sets elements.old 0 model.now }
{
    for i in 0..model.len() {
        elements[i] = model[i] as u8;
    }
}
