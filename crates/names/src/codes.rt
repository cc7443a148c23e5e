// Names by their codes, one at a time.
ghost use Rattle.std.specs.Prelude.{◌≡◌, ◌<◌};
ghost use Rattle.names.specs.Sets.{member};
ghost use Rattle.names.specs.codes.Codes.{name_of_code};
ghost use Rattle.schema_spec.specs.Names.{Name, same_name};

use crate::{MAX_ELEMENTS, NameSet};

// How many codes there are: one for each element and one for its text name.
pub const CODES: usize = 2 * MAX_ELEMENTS;

// The name of the code `c` alone.
pub fn single(c: usize) -> NameSet
    requires { c < 64 }
    ensures { (n : Name) → member result n ≡ same_name n (name_of_code c) }
{
    if c < MAX_ELEMENTS {
        NameSet::empty().insert_element(c)
    } else {
        NameSet::empty().insert_text(c - MAX_ELEMENTS)
    }
}

// Whether the name of the code `c` is in the set.
pub fn has(t: NameSet, c: usize) -> bool
    requires { c < 64 }
    ensures { result ≡ member t (name_of_code c) }
{
    if c < MAX_ELEMENTS {
        t.has_element(c)
    } else {
        t.has_text(c - MAX_ELEMENTS)
    }
}
