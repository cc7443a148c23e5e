// What the elements of a schema hold and what lies below them, and how sets of names are related by it.
ghost use Rattle.std.specs.Prelude.{◌↔◌, ◌≡◌, ℕ, ◌<◌, ◌≤◌, T, length};
ghost use Rattle.inference_spec.specs.Types.{all_above, all_below, held_by, holding};
ghost use Rattle.names.specs.Sets.{NamesOf, member, set_in};
ghost use Rattle.names.specs.closures.Relations.{relates, Reachable, through_element, related_from, related_to, NonePast};
ghost use Rattle.schema_spec.specs.Names.{Name};
ghost use Rattle.schema_spec.specs.Schemas.{Schema};
ghost use Rattle.schema_spec.specs.Types.{types_of};
ghost use Rattle.text_spec.specs.Limits.{max_declarations};

use crate::{MAX_ELEMENTS, NameSet};

// Two arrays and none of pairs: `below` is made of the whole of `holds`, and functions take one of the two.
#[derive(Clone, Copy)]
pub struct Relations {
    // how many elements there are
    pub count: usize,
    // the names that each element holds
    pub holds: [NameSet; MAX_ELEMENTS],
    // the names below each element
    pub below: [NameSet; MAX_ELEMENTS],
}

impl Relations {
    ghost use Rattle.names.specs.closures.Schemas.{RelationOf};
    ghost use Rattle.names.specs.relations.Relations.{RelationsOf};
    ghost use Rattle.schema_spec.specs.Types.{holds};

    // From what each of `count` elements holds.
    pub fn of(count: usize, holds: [NameSet; MAX_ELEMENTS]) -> Relations
        ensures counted { result.count ≡ count }
        ensures held { result.«holds» ≡ «holds» }
        ensures beneath { NonePast count «holds» → (a : ℕ) (b : Name) → T (relates result.below a b) ↔ Reachable «holds» count a b }
    {
        let below = reached(&holds, count.min(MAX_ELEMENTS));
        Relations {
            count,
            holds,
            below,
        }
    }

    // The names of the schema of so many elements that hold these names.
    pub fn names(&self) -> NameSet
        requires { self.now.count ≤ max_declarations }
        ensures { (s : Schema) → RelationOf (holds s) self.now.«holds» → self.now.count ≡ length s → NamesOf s result }
    {
        let mut all = NameSet::empty();
        for i in 0..self.count {
            all = all.insert_element(i);
            if self.holds[i].has_text(i) {
                all = all.insert_text(i);
            }
        }
        all
    }

    // All that a set holds.
    pub fn held_by(&self, t: NameSet) -> NameSet
        ensures of_schema { (s : Schema) → RelationsOf s self.now → set_in s result ≡ held_by (types_of s) (set_in s t) }
        ensures members { self.now.count ≤ max_declarations → (n : Name) → member result n ≡ related_from self.now.count self.now.«holds» t n }
    {
        related_from(&self.holds, self.count, t)
    }

    // Those that hold a name of a set.
    pub fn holding(&self, t: NameSet) -> NameSet
        ensures of_schema { (s : Schema) → RelationsOf s self.now → set_in s result ≡ holding (types_of s) (set_in s t) }
        ensures members { self.now.count ≤ max_declarations → (n : Name) → member result n ≡ related_to self.now.count self.now.«holds» t n }
    {
        related_to(&self.holds, self.count, t)
    }

    // All below a set.
    pub fn all_below(&self, t: NameSet) -> NameSet
        ensures of_schema { (s : Schema) → RelationsOf s self.now → set_in s result ≡ all_below (types_of s) (set_in s t) }
        ensures members { self.now.count ≤ max_declarations → (n : Name) → member result n ≡ related_from self.now.count self.now.below t n }
    {
        related_from(&self.below, self.count, t)
    }

    // All above a set.
    pub fn all_above(&self, t: NameSet) -> NameSet
        ensures of_schema { (s : Schema) → RelationsOf s self.now → set_in s result ≡ all_above (types_of s) (set_in s t) }
        ensures members { self.now.count ≤ max_declarations → (n : Name) → member result n ≡ related_to self.now.count self.now.below t n }
    {
        related_to(&self.below, self.count, t)
    }
}

// Lets a way also go through the element `k`: one round of Warshall's.
fn round(images: &mut [NameSet; MAX_ELEMENTS], count: usize, k: usize)
    requires { (k < max_declarations) × (count ≤ max_declarations) }
    ensures { NonePast count images.old → (a : ℕ) (b : Name) → relates images.new a b ≡ through_element images.old k a b }
{
    let image = images[k];
    for i in 0..count {
        let set = images[i];
        if set.has_element(k) {
            images[i] = set | image;
        }
    }
}

// What each element reaches, by way of the first `count` elements, from what each holds.
fn reached(holds: &[NameSet; MAX_ELEMENTS], count: usize) -> [NameSet; MAX_ELEMENTS]
    requires { count ≤ max_declarations }
    ensures { NonePast count holds.now → (a : ℕ) (b : Name) → T (relates result a b) ↔ Reachable holds.now count a b }
{
    let mut images = *holds;
    for k in 0..count {
        round(&mut images, count, k);
    }
    images
}

// All that the elements of a set are related to, of `count` elements.
// By index: it is the element's number, which the set is asked for, and `enumerate` with `take` is no plainer.
pub fn related_from(images: &[NameSet; MAX_ELEMENTS], count: usize, s: NameSet) -> NameSet
    ensures { count ≤ max_declarations → (b : Name) → member result b ≡ related_from count images.now s b }
{
    let mut all = NameSet::empty();
    for i in 0..count.min(MAX_ELEMENTS) {
        if s.has_element(i) {
            all |= images[i];
        }
    }
    all
}

// All elements, of `count`, that are related to a name of a set.
// A loop of its own: `related_from` adds the images of a set, this the elements whose image meets it.
pub fn related_to(images: &[NameSet; MAX_ELEMENTS], count: usize, s: NameSet) -> NameSet
    ensures { count ≤ max_declarations → (n : Name) → member result n ≡ related_to count images.now s n }
{
    let mut all = NameSet::empty();
    for i in 0..count.min(MAX_ELEMENTS) {
        if images[i].meets(s) {
            all = all.insert_element(i);
        }
    }
    all
}
