// Names by their places in a schema text: which is declared twice, and the elements that the used ones name.
ghost use Rattle.std.specs.Prelude.{[], ◌≡◌};
ghost use Rattle.schema_reader.specs.declared_names.Names.{twice_at, Resolved};
ghost use Rattle.text.specs.lookup.Lookup.{found};
ghost use Rattle.text_spec.specs.Lists.{first};

use text::lookup;

// The first of the declared names that is declared before it.
pub fn twice(s: &[u8], names: &[usize]) -> Option<usize>
    ensures { found result ≡ first (twice_at s.now [] names.now) }
{
    for (i, place) in names.iter().enumerate() {
        if lookup::find(s, &names[..i], s, *place).is_some() {
            return Some(*place);
        }
    }
    None
}

// Replaces the place of each used name by the element with that name, or else gives the first place whose name is not declared.
pub fn resolve(s: &[u8], names: &[usize], uses: &mut [usize]) -> Result<(), usize>
    ensures { Resolved s.now names.now uses.old uses.new result }
{
    for place in uses.iter_mut() {
        match lookup::find(s, names, s, *place) {
            Some(element) => *place = element,
            None => return Err(*place),
        }
    }
    Ok(())
}
