// What a path needs: written steps with their conditions, and the last filter.
ghost use Rattle.std.specs.Prelude.{◌≡◌, ℕ};
ghost use Rattle.inference.specs.back_steps.Needs.{NeedsOf};
ghost use Rattle.inference.specs.type_steps.Envs.{env_in};
ghost use Rattle.inference_spec.specs.Needed.{keeps_name, wants_names, needed_by_path};
ghost use Rattle.names.specs.Sets.{set_in};
ghost use Rattle.needed_names.specs.asked.Asked.{AskedOf, asked_steps};
ghost use Rattle.needed_names.specs.paths.Steps.{HasWrittenSteps};
ghost use Rattle.path_spec.specs.Paths.{unconditional, expand_from, from_root_element};
ghost use Rattle.schema_spec.specs.Schemas.{Schema};
ghost use Rattle.schema_spec.specs.Types.{types_of};

use crate::asked::Asked;
use crate::conditions::{conditioned, wanted};
use crate::reachable_names;
use inference::back_steps::Needs;
use inference::type_steps::Inferred;
use names::NameSet;

// What `n` steps from `k` on need. By recursion: what a step adds is known from what the later ones need.
fn need_steps(asked: &Asked, k: usize, n: usize, e: Inferred) -> Needs
    requires { HasWrittenSteps asked.now.paths.now k n }
    ensures { (s : Schema) → AskedOf s asked.now → (i : ℕ) → NeedsOf s (keeps_name (types_of s)) (wants_names (types_of s)) (expand_from unconditional i (asked_steps asked.now n k)) (env_in s e) result }
{
    if n == 0 {
        return Needs {
            complete: e.types,
            names: e.types,
        };
    }
    let step = asked.paths.steps[k];
    let range = asked.paths.condition(k);
    let first = range.start;
    let size = range.end - first;
    let gone = e.written_step(asked.relations, step.axis, step.test);
    let f = conditioned(asked, first, size, gone);
    let later = need_steps(asked, k + 1, n - 1, f);
    let want = wanted(asked, first, size, later.complete, f.context);
    later.with_written_step(asked.relations, step.axis, e, want)
}

// The names that the path of `n` steps from `k` on needs.
pub fn path_needed(asked: &Asked, k: usize, n: usize) -> NameSet
    requires { HasWrittenSteps asked.now.paths.now k n }
    ensures { (s : Schema) → AskedOf s asked.now → set_in s result ≡ needed_by_path (types_of s) (from_root_element (asked_steps asked.now n k)) }
{
    let root = reachable_names::root();
    let start = Inferred {
        types: root,
        context: root,
    };
    let needs = need_steps(asked, k, n, start);
    reachable_names::from_root(asked.relations, needs.names)
}
