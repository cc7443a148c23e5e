// One step of the inference of types and contexts, over sets of names as words.
ghost use Rattle.std.specs.Prelude.{◌≡◌};
ghost use Rattle.compiled_paths.specs.Steps.{axis_of, written_axis, node_test};
ghost use Rattle.inference_spec.specs.Types.{env, cut_to, move};
ghost use Rattle.inference.specs.type_steps.Envs.{env_in};
ghost use Rattle.inference.specs.type_steps.Laws.{Tested};
ghost use Rattle.inference.specs.written_steps.Parts.{stepped, reached};
ghost use Rattle.names.specs.Sets.{set_in};
ghost use Rattle.names.specs.relations.Relations.{RelationsOf};
ghost use Rattle.path_spec.specs.Paths.{following, following_sibling};
ghost use Rattle.schema_spec.specs.Schemas.{Schema};
ghost use Rattle.schema_spec.specs.Types.{types_of};

use compiled_paths::{Axis, NodeTest};
use names::NameSet;
use names::relations::Relations;

// A type and a context.
#[derive(Clone, Copy, PartialEq, Eq)]
pub struct Inferred {
    pub types: NameSet,
    pub context: NameSet,
}

// What a set has that passes a test.
fn tested(t: NameSet, test: NodeTest) -> NameSet
    ensures { Tested (node_test test) t result }
{
    match test {
        NodeTest::Node => t,
        NodeTest::Text => NameSet { elements: 0, ..t },
        NodeTest::Element(e) => t & NameSet::empty().insert_element(usize::from(e)),
    }
}

impl Inferred {
    // Another type, and the context cut to it and above it.
    pub fn narrowed_to(self, relations: &Relations, types: NameSet) -> Inferred
        ensures { (s : Schema) → RelationsOf s relations.now → env_in s result ≡ env (set_in s types) (cut_to (types_of s) (set_in s types) (set_in s self.context)) }
    {
        let near = types | relations.all_above(types);
        Inferred {
            types,
            context: self.context & near,
        }
    }

    // The type and the context that an axis leads to.
    // A `match` and no closure: each axis has a rule of its own.
    fn moved(self, relations: &Relations, axis: Axis, test: NodeTest) -> Inferred
        ensures { (s : Schema) → RelationsOf s relations.now → env_in s result ≡ move (types_of s) (axis_of axis) (node_test test) (env_in s self) }
    {
        match axis {
            Axis::Child => {
                let types = relations.held_by(self.types);
                Inferred {
                    types,
                    context: self.context | tested(types, test),
                }
            }
            Axis::Descendant => {
                let types = relations.all_below(self.types);
                Inferred {
                    types,
                    context: self.context | types,
                }
            }
            Axis::DescendantOrSelf => {
                let types = self.types | relations.all_below(self.types);
                Inferred {
                    types,
                    context: self.context | types,
                }
            }
            Axis::Parent => {
                self.narrowed_to(relations, relations.holding(self.types) & self.context)
            }
            Axis::Ancestor => {
                self.narrowed_to(relations, relations.all_above(self.types) & self.context)
            }
            Axis::AncestorOrSelf => {
                let above = relations.all_above(self.types) & self.context;
                self.narrowed_to(relations, self.types | above)
            }
            _ => self,
        }
    }

    // After a step but for its condition.
    pub fn step(self, relations: &Relations, axis: Axis, test: NodeTest) -> Inferred
        ensures { (s : Schema) → RelationsOf s relations.now → env_in s result ≡ stepped (types_of s) (axis_of axis) (node_test test) (env_in s self) }
    {
        let gone = self.moved(relations, axis, test);
        gone.narrowed_to(relations, tested(gone.types, test))
    }

    // After a step of a sibling axis: to the parent, then to its children.
    fn to_siblings(self, relations: &Relations, test: NodeTest) -> Inferred
        ensures { (s : Schema) → RelationsOf s relations.now → env_in s result ≡ reached (types_of s) following_sibling (node_test test) (env_in s self) }
    {
        let parents = self.step(relations, Axis::Parent, NodeTest::Node);
        parents.step(relations, Axis::Child, test)
    }

    // After a step of following or preceding: up, to the siblings, and down.
    fn to_following(self, relations: &Relations, test: NodeTest) -> Inferred
        ensures { (s : Schema) → RelationsOf s relations.now → env_in s result ≡ reached (types_of s) following (node_test test) (env_in s self) }
    {
        let up = self.step(relations, Axis::AncestorOrSelf, NodeTest::Node);
        let siblings = up.to_siblings(relations, NodeTest::Node);
        siblings.step(relations, Axis::DescendantOrSelf, test)
    }

    // After a written step but for its condition: the steps by which it is analysed, the test on the last of them.
    pub fn written_step(self, relations: &Relations, axis: Axis, test: NodeTest) -> Inferred
        ensures { (s : Schema) → RelationsOf s relations.now → env_in s result ≡ reached (types_of s) (written_axis axis) (node_test test) (env_in s self) }
    {
        match axis {
            Axis::Following | Axis::Preceding => self.to_following(relations, test),
            Axis::FollowingSibling | Axis::PrecedingSibling => self.to_siblings(relations, test),
            _ => self.step(relations, axis, test),
        }
    }
}
