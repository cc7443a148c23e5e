// Names in a text, by their places: the first that is a given one, and elements by their names.
ghost use Rattle.std.specs.Prelude.{map, ◌≡◌};
ghost use Rattle.schema_spec.specs.Schemas.{index_from};
ghost use Rattle.text_spec.specs.Scans.{name_at};
ghost use Rattle.text.specs.lookup.Lookup.{found};
ghost use Rattle.text.specs.name_bytes.Names.{IsName};

use crate::name_bytes;

// The index of the first of the names at the places `names` of s that is this one.
fn index_of(s: &[u8], names: &[usize], name: &[u8]) -> Option<usize>
    requires { IsName name.now }
    ensures { found result ≡ index_from 0 name.now (map (name_at s.now) names.now) }
{
    names.iter().position(|p| name_bytes::is_named(s, *p, name))
}

// The index of the first of the names at the places `names` of s that is the name at place p of t.
pub fn find(s: &[u8], names: &[usize], t: &[u8], p: usize) -> Option<usize>
    ensures { found result ≡ index_from 0 (name_at t.now p) (map (name_at s.now) names.now) }
{
    index_of(s, names, name_bytes::name_at(t, p))
}

// The first of the elements whose names stand at the places `names` of the text that has this name.
pub fn element_named(text: &[u8], names: &[usize], name: &[u8]) -> Option<usize>
    ensures { found result ≡ index_from 0 name.now (map (name_at text.now) names.now) }
{
    if name_bytes::name_at(name, 0).len() != name.len() {
        return None;
    }
    index_of(text, names, name)
}
