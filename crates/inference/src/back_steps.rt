// One step back: the names of a type from which walks go on to the last step, and what these walks need.
ghost use Rattle.std.specs.Prelude.{◌≡◌};
ghost use Rattle.compiled_paths.specs.Steps.{axis_of, written_axis};
ghost use Rattle.inference_spec.specs.Needed.{between};
ghost use Rattle.inference.specs.back_steps.Needs.{RelatedTo, StepNeeds};
ghost use Rattle.inference.specs.type_steps.Envs.{env_in};
ghost use Rattle.inference.specs.written_steps.Parts.{WrittenNeeds};
ghost use Rattle.names.specs.Sets.{set_in};
ghost use Rattle.names.specs.relations.Relations.{RelationsOf};
ghost use Rattle.path_spec.specs.Paths.{following, following_sibling};
ghost use Rattle.schema_spec.specs.Schemas.{Schema};
ghost use Rattle.schema_spec.specs.Types.{types_of};

use crate::type_steps::Inferred;
use compiled_paths::{Axis, NodeTest};
use names::NameSet;
use names::relations::Relations;

// The names from which walks go to the last step, and what these walks need.
#[derive(Clone, Copy, PartialEq, Eq)]
pub struct Needs {
    pub complete: NameSet,
    pub names: NameSet,
}

// The names that an axis relates to a name of a set.
// A `match` and no closure, as in `names_between`: each axis has a relation of its own.
fn related_names(relations: &Relations, axis: Axis, h: NameSet) -> NameSet
    ensures { (s : Schema) → RelationsOf s relations.now → RelatedTo s (axis_of axis) (set_in s h) (set_in s result) }
{
    match axis {
        Axis::Child => relations.holding(h),
        Axis::Descendant => relations.all_above(h),
        Axis::DescendantOrSelf => h | relations.all_above(h),
        Axis::Parent => relations.held_by(h),
        Axis::Ancestor => relations.all_below(h),
        Axis::AncestorOrSelf => h | relations.all_below(h),
        _ => h,
    }
}

// The names between two neighbouring steps.
fn names_between(relations: &Relations, axis: Axis, g: NameSet, h: NameSet) -> NameSet
    ensures { (s : Schema) → RelationsOf s relations.now → set_in s result ≡ between (types_of s) (axis_of axis) (set_in s g) (set_in s h) }
{
    match axis {
        Axis::Descendant | Axis::DescendantOrSelf => {
            relations.all_below(g) & relations.all_above(h)
        }
        _ => NameSet::empty(),
    }
}

impl Needs {
    // With what a step in front of these adds, from the type `t`: `wanted` is for its condition.
    pub fn with_step(self, relations: &Relations, axis: Axis, t: NameSet, wanted: NameSet) -> Needs
        ensures { (s : Schema) → RelationsOf s relations.now → StepNeeds s (axis_of axis) (set_in s t) wanted self result }
    {
        let complete = t & related_names(relations, axis, self.complete);
        let inside = names_between(relations, axis, complete, self.complete);
        Needs {
            complete,
            names: complete | (inside | (wanted | self.names)),
        }
    }

    // With what a step of a sibling axis adds.
    fn with_siblings(self, relations: &Relations, e: Inferred, wanted: NameSet) -> Needs
        ensures { (s : Schema) → RelationsOf s relations.now → WrittenNeeds s following_sibling (env_in s e) wanted self result }
    {
        let parents = e.step(relations, Axis::Parent, NodeTest::Node);
        let last = self.with_step(relations, Axis::Child, parents.types, wanted);
        last.with_step(relations, Axis::Parent, e.types, NameSet::empty())
    }

    // With what a step of following or preceding adds.
    fn with_following(self, relations: &Relations, e: Inferred, wanted: NameSet) -> Needs
        ensures { (s : Schema) → RelationsOf s relations.now → WrittenNeeds s following (env_in s e) wanted self result }
    {
        let none = NameSet::empty();
        let up = e.step(relations, Axis::AncestorOrSelf, NodeTest::Node);
        let parents = up.step(relations, Axis::Parent, NodeTest::Node);
        let siblings = parents.step(relations, Axis::Child, NodeTest::Node);
        let last = self.with_step(relations, Axis::DescendantOrSelf, siblings.types, wanted);
        let third = last.with_step(relations, Axis::Child, parents.types, none);
        let second = third.with_step(relations, Axis::Parent, up.types, none);
        second.with_step(relations, Axis::AncestorOrSelf, e.types, none)
    }

    // With what a written step adds: `wanted` is for its condition.
    pub fn with_written_step(
        self,
        relations: &Relations,
        axis: Axis,
        e: Inferred,
        wanted: NameSet,
    ) -> Needs
        ensures { (s : Schema) → RelationsOf s relations.now → WrittenNeeds s (written_axis axis) (env_in s e) wanted self result }
    {
        match axis {
            Axis::Following | Axis::Preceding => self.with_following(relations, e, wanted),
            Axis::FollowingSibling | Axis::PrecedingSibling => {
                self.with_siblings(relations, e, wanted)
            }
            _ => self.with_step(relations, axis, e.types, wanted),
        }
    }
}
