// The last filter: the names of a set that the root reaches by holdings inside it.
ghost use Rattle.std.specs.Prelude.{◌&&◌, [], ◌∷◌, ◌≡◌, ℕ, ◌<◌, ◌≤◌, length};
ghost use Rattle.inference_spec.specs.Needed.{from_root};
ghost use Rattle.names.specs.Sets.{member, set_in};
ghost use Rattle.names.specs.closures.Relations.{relates, NonePast};
ghost use Rattle.names.specs.relations.Relations.{RelationsOf};
ghost use Rattle.schema_spec.specs.Names.{Name, Names, element, names_of, within};
ghost use Rattle.schema_spec.specs.Schemas.{Schema};
ghost use Rattle.schema_spec.specs.Types.{types_of};
ghost use Rattle.text_spec.specs.Limits.{max_declarations};

use names::relations::Relations;
use names::{MAX_ELEMENTS, NameSet};

// What each of `count` elements holds inside the set `m`.
fn held_inside(holds: &[NameSet; MAX_ELEMENTS], count: usize, m: NameSet) -> [NameSet; MAX_ELEMENTS]
    requires { count ≤ max_declarations }
    ensures { NonePast count holds.now → (a : ℕ) (b : Name) → relates result a b ≡ (relates holds.now a b && (member m (element a) && member m b)) }
{
    let mut images = *holds;
    for a in 0..count {
        if m.has_element(a) {
            images[a] = images[a] & m;
        } else {
            images[a] = NameSet::empty();
        }
    }
    images
}

// The names of a set that the root reaches by holdings inside it.
pub fn from_root(relations: &Relations, m: NameSet) -> NameSet
    ensures { (s : Schema) → RelationsOf s relations.now → (l : Names) → set_in s m ≡ within (names_of s) l → set_in s result ≡ from_root (types_of s) l }
{
    let images = held_inside(&relations.holds, relations.count.min(MAX_ELEMENTS), m);
    let inside = Relations::of(relations.count, images);
    let reached = inside.below[0].insert_element(0);
    m & reached
}

// The root alone.
pub fn root() -> NameSet
    ensures { (s : Schema) → 0 < length s → set_in s result ≡ element 0 ∷ [] }
{
    NameSet::empty().insert_element(0)
}
