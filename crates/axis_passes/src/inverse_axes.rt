// The inverse of an axis.
ghost use Rattle.std.specs.Prelude.{◌≡◌};
ghost use Rattle.compiled_paths.specs.Steps.{written_axis};
ghost use Rattle.path_laws.specs.Inverses.{inverse_written};

use compiled_paths::Axis;

pub fn inverse_of(axis: Axis) -> Axis
    ensures { written_axis result ≡ inverse_written (written_axis axis) }
{
    match axis {
        Axis::SelfNode => Axis::SelfNode,
        Axis::Child => Axis::Parent,
        Axis::Descendant => Axis::Ancestor,
        Axis::DescendantOrSelf => Axis::AncestorOrSelf,
        Axis::Parent => Axis::Child,
        Axis::Ancestor => Axis::Descendant,
        Axis::AncestorOrSelf => Axis::DescendantOrSelf,
        Axis::Following => Axis::Preceding,
        Axis::FollowingSibling => Axis::PrecedingSibling,
        Axis::Preceding => Axis::Following,
        Axis::PrecedingSibling => Axis::FollowingSibling,
    }
}
