// The condition of a step: which names of a type it keeps, and what it wants from names.
ghost use Rattle.std.specs.Prelude.{◌&&◌, ◌≡◌, ◌+◌, ◌<◌, ◌≤◌};
ghost use mathlib.Core.List.{Memᴰ};
ghost use Rattle.compiled_paths.specs.Sizes.{all_steps};
ghost use Rattle.compiled_paths.specs.Steps.{condition_in};
ghost use Rattle.inference.specs.type_steps.Envs.{env_in};
ghost use Rattle.inference_spec.specs.Types.{narrow};
ghost use Rattle.names.specs.Sets.{member, set_in, Known};
ghost use Rattle.names.specs.codes.Codes.{name_of_code};
ghost use Rattle.needed_names.specs.asked.Asked.{AskedOf, asked_alternatives};
ghost use Rattle.needed_names.specs.conditions.Conditions.{keeps_in, wants_in};
ghost use Rattle.schema_spec.specs.Names.{Name, has, names_of, within};
ghost use Rattle.schema_spec.specs.Schemas.{Schema};
ghost use Rattle.schema_spec.specs.Types.{types_of};
ghost use Rattle.text_spec.specs.Lists.{gather};

use crate::alternatives::{any_ends_some, from_name, need_of_all};
use crate::asked::Asked;
use inference::type_steps::Inferred;
use names::codes::CODES;
use names::{NameSet, codes};

// Whether the name of the code `c` is in the type and the alternatives in `n` steps from `i` on keep it, in the context.
fn keeps(asked: &Asked, i: usize, n: usize, e: Inferred, c: usize) -> bool
    requires { (i + n ≤ all_steps) × (c < 64) }
    ensures { (s : Schema) → AskedOf s asked.now → Memᴰ (name_of_code c) (names_of s) → result ≡ (member e.types (name_of_code c) && keeps_in s e.context (asked_alternatives asked.now n i) (name_of_code c)) }
{
    codes::has(e.types, c) && any_ends_some(asked, i, n, from_name(asked.relations, e.context, c))
}

// The names of the type that the alternatives in `n` steps from `i` on keep, in the context.
fn kept_by_some(asked: &Asked, i: usize, n: usize, e: Inferred) -> NameSet
    requires { i + n ≤ all_steps }
    ensures { (s : Schema) → AskedOf s asked.now → (m : Name) → Memᴰ m (names_of s) → member result m ≡ (member e.types m && keeps_in s e.context (asked_alternatives asked.now n i) m) }
{
    let mut kept = NameSet::empty();
    for c in 0..CODES {
        if keeps(asked, i, n, e, c) {
            kept |= codes::single(c);
        }
    }
    kept
}

// The names of the type that a condition keeps, in the context: all, if it has no alternative.
fn kept(asked: &Asked, i: usize, n: usize, e: Inferred) -> NameSet
    requires { i + n ≤ all_steps }
    ensures { (s : Schema) → AskedOf s asked.now → (m : Name) → Memᴰ m (names_of s) → member result m ≡ (member e.types m && keeps_in s e.context (condition_in asked.now.paths.now.steps n i) m) }
{
    if n == 0 {
        e.types
    } else {
        kept_by_some(asked, i, n, e)
    }
}

// The type and the context that a condition leaves.
pub fn conditioned(asked: &Asked, i: usize, n: usize, e: Inferred) -> Inferred
    requires { i + n ≤ all_steps }
    ensures { (s : Schema) → AskedOf s asked.now → env_in s result ≡ narrow (types_of s) (keeps_in s e.context (condition_in asked.now.paths.now.steps n i)) (env_in s e) }
{
    let types = kept(asked, i, n, e);
    e.narrowed_to(asked.relations, types)
}

// What the alternatives in `n` steps from `i` on want from the name of the code `c`, if it is in the set `g`, in the context `k`.
fn wanted_of(asked: &Asked, i: usize, n: usize, g: NameSet, k: NameSet, c: usize) -> NameSet
    requires { (i + n ≤ all_steps) × (c < 64) }
    ensures { (s : Schema) → AskedOf s asked.now → Known s g → (m : Name) → Memᴰ m (names_of s) → member result m ≡ (member g (name_of_code c) && has m (wants_in s k (asked_alternatives asked.now n i) (name_of_code c))) }
{
    if codes::has(g, c) {
        need_of_all(asked, i, n, from_name(asked.relations, k, c))
    } else {
        NameSet::empty()
    }
}

// What the alternatives in `n` steps from `i` on want from the names of the set `h`, in the context `k`.
fn wanted_by_some(asked: &Asked, i: usize, n: usize, h: NameSet, k: NameSet) -> NameSet
    requires { i + n ≤ all_steps }
    ensures { (s : Schema) → AskedOf s asked.now → set_in s result ≡ within (names_of s) (gather (wants_in s k (asked_alternatives asked.now n i)) (set_in s h)) }
{
    let g = h & asked.all;
    let mut wanted = NameSet::empty();
    for c in 0..CODES {
        wanted |= wanted_of(asked, i, n, g, k, c);
    }
    wanted
}

// What a condition wants from the names of the set `h`, in the context `k`: nothing, if it has no alternative.
pub fn wanted(asked: &Asked, i: usize, n: usize, h: NameSet, k: NameSet) -> NameSet
    requires { i + n ≤ all_steps }
    ensures { (s : Schema) → AskedOf s asked.now → set_in s result ≡ within (names_of s) (gather (wants_in s k (condition_in asked.now.paths.now.steps n i)) (set_in s h)) }
{
    if n == 0 {
        NameSet::empty()
    } else {
        wanted_by_some(asked, i, n, h, k)
    }
}
