// Steps without brackets, from a type and a context: where they end, and what their walks to the last step need.
ghost use Rattle.std.specs.Prelude.{◌≡◌, ℕ, map};
ghost use Rattle.compiled_paths.specs.Steps.{plain_step};
ghost use Rattle.inference_spec.specs.Needed.{keeps_all, wants_nothing};
ghost use Rattle.inference_spec.specs.Types.{infer_all};
ghost use Rattle.inference.specs.back_steps.Needs.{NeedsOf};
ghost use Rattle.inference.specs.type_steps.Envs.{env_in};
ghost use Rattle.names.specs.relations.Relations.{RelationsOf};
ghost use Rattle.path_spec.specs.Paths.{expand_from};
ghost use Rattle.schema_spec.specs.Schemas.{Schema};
ghost use Rattle.schema_spec.specs.Types.{types_of};

use crate::back_steps::Needs;
use crate::type_steps::Inferred;
use compiled_paths::Step;
use names::NameSet;
use names::relations::Relations;

// The type and the context that steps end with.
pub fn infer_plain(relations: &Relations, steps: &[Step], e: Inferred) -> Inferred
    ensures { (s : Schema) → RelationsOf s relations.now → (i : ℕ) → env_in s result ≡ infer_all (types_of s) keeps_all (expand_from tt i (map plain_step steps.now)) (env_in s e) }
{
    let mut reached = e;
    for step in steps {
        reached = reached.written_step(relations, step.axis, step.test);
    }
    reached
}

// What steps need. By recursion: what a step adds is known from what the later ones need, and there is no memory for all of them.
pub fn need_plain(relations: &Relations, steps: &[Step], e: Inferred) -> Needs
    ensures { (s : Schema) → RelationsOf s relations.now → (i : ℕ) → NeedsOf s keeps_all wants_nothing (expand_from tt i (map plain_step steps.now)) (env_in s e) result }
{
    match steps.split_first() {
        Some((step, rest)) => {
            let f = e.written_step(relations, step.axis, step.test);
            let later = need_plain(relations, rest, f);
            later.with_written_step(relations, step.axis, e, NameSet::empty())
        }
        None => Needs {
            complete: e.types,
            names: e.types,
        },
    }
}
