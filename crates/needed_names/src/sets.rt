// The names that compiled paths need under a compiled schema.
ghost use Rattle.std.specs.Prelude.{◌≡◌, ◌≤◌};
ghost use Rattle.compiled_paths.specs.Paths.{paths_in, Shaped};
ghost use Rattle.inference_spec.specs.Needed.{needed};
ghost use Rattle.names.specs.Sets.{Known, set_in};
ghost use Rattle.names.specs.relations.Relations.{RelationsOf};
ghost use Rattle.needed_names.specs.sets.Needs.{NeededIn};
ghost use Rattle.schema_spec.specs.Schemas.{Schema};
ghost use Rattle.schema_spec.specs.Types.{types_of};
ghost use Rattle.text_spec.specs.Limits.{max_declarations};

use crate::asked::Asked;
use crate::paths::path_needed;
use compiled_paths::CompiledPaths;
use compiled_schema::CompiledSchema;
use names::NameSet;
use names::relations::Relations;

// The names that paths need, as a set of names of the schema alone.
pub fn needed_set(relations: &Relations, paths: &CompiledPaths) -> NameSet
    requires { Shaped paths.now × (relations.now.count ≤ max_declarations) }
    ensures { (s : Schema) → RelationsOf s relations.now → (set_in s result ≡ needed (types_of s) (paths_in paths.now)) × Known s result }
{
    let all = relations.names();
    let asked = Asked {
        relations,
        all,
        paths,
    };
    let mut needed = NameSet::empty();
    for i in 0..paths.count {
        let range = paths.path(i);
        needed |= path_needed(&asked, range.start, range.end - range.start);
    }
    needed & all
}

// The names that paths need, as a set of names of the schema alone.
pub fn needed_under(compiled: &CompiledSchema, paths: &CompiledPaths) -> NameSet
    requires { Shaped paths.now × (compiled.now.relations.count ≤ max_declarations) }
    ensures { NeededIn compiled.now paths.now result }
{
    needed_set(&compiled.relations, paths)
}
