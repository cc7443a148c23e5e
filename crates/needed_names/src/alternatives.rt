// The alternatives of a condition, from one name: whether one of them ends with a type that is not empty, and what they need.
ghost use Rattle.std.specs.Prelude.{◌≡◌, ◌+◌, ◌<◌, ◌≤◌};
ghost use Rattle.compiled_paths.specs.Sizes.{all_steps};
ghost use Rattle.compiled_paths.specs.Steps.{plain_in, alternatives_in};
ghost use Rattle.inference.specs.type_steps.Envs.{env_in};
ghost use Rattle.names.specs.Sets.{set_in};
ghost use Rattle.names.specs.relations.Relations.{RelationsOf};
ghost use Rattle.needed_names.specs.alternatives.Alternatives.{FromName, ends_some, any_ends_some, need_of_all};
ghost use Rattle.needed_names.specs.asked.Asked.{AskedOf};
ghost use Rattle.schema_spec.specs.Names.{names_of, within};
ghost use Rattle.schema_spec.specs.Schemas.{Schema};

use crate::asked::Asked;
use inference::plain_steps::{infer_plain, need_plain};
use inference::type_steps::Inferred;
use names::relations::Relations;
use names::{NameSet, codes};

// The type of the name of the code `c` alone, and the context `k` cut to it and above it.
pub fn from_name(relations: &Relations, k: NameSet, c: usize) -> Inferred
    requires { c < 64 }
    ensures { (s : Schema) → RelationsOf s relations.now → FromName s k c result }
{
    let types = codes::single(c);
    let anywhere = Inferred { types, context: k };
    anywhere.narrowed_to(relations, types)
}

// Whether `n` steps from `k` on end with a type that is not empty.
fn ends_some(asked: &Asked, k: usize, n: usize, e: Inferred) -> bool
    requires { k + n ≤ all_steps }
    ensures { (s : Schema) → AskedOf s asked.now → result ≡ ends_some s (env_in s e) (plain_in asked.now.paths.now.steps n k) }
{
    let end = infer_plain(asked.relations, asked.steps(k, n), e);
    asked.all.meets(end.types)
}

// Whether one of the alternatives in `n` steps from `k` on ends with a type that is not empty.
// By recursion, as `need_of_all`: it is its definition, over the steps after the first alternative, and a `while` is no plainer.
pub fn any_ends_some(asked: &Asked, k: usize, n: usize, e: Inferred) -> bool
    requires { k + n ≤ all_steps }
    ensures { (s : Schema) → AskedOf s asked.now → result ≡ any_ends_some s (env_in s e) (alternatives_in asked.now.paths.now.steps n k) }
{
    if n == 0 {
        return false;
    }
    let size = asked.paths.first_size(k, n);
    if ends_some(asked, k, size, e) {
        return true;
    }
    any_ends_some(asked, k + size, n - size, e)
}

// What the alternatives in `n` steps from `k` on need.
pub fn need_of_all(asked: &Asked, k: usize, n: usize, e: Inferred) -> NameSet
    requires { k + n ≤ all_steps }
    ensures { (s : Schema) → RelationsOf s asked.now.relations.now → set_in s result ≡ within (names_of s) (need_of_all s (env_in s e) (alternatives_in asked.now.paths.now.steps n k)) }
{
    if n == 0 {
        return NameSet::empty();
    }
    let size = asked.paths.first_size(k, n);
    let one = need_plain(asked.relations, asked.steps(k, size), e);
    let rest = need_of_all(asked, k + size, n - size, e);
    one.names | rest
}
