// One step of a compiled path for all rows at once: forward along its axis, and back along the inverse axis.
ghost use Rattle.std.specs.Prelude.{◌≡◌};
ghost use Rattle.axis_passes.specs.steps.Steps.{forward_marks, backward_marks, StepPass};
ghost use Rattle.compiled_paths.specs.Steps.{written_axis};
ghost use Rattle.selection_laws.specs.marks.Passes.{AxisPass};
ghost use Rattle.selection_laws.specs.marks.Selection.{written_marks};

use crate::downward::{children, descendants, descendants_or_self};
use crate::inverse_axes::inverse_of;
use crate::mark_sets::any_marked;
use crate::name_tests::filter_test;
use crate::siblings::{following, following_siblings, preceding, preceding_siblings};
use crate::upward::{ancestors, ancestors_or_self, parents_of};
use cells::columns::Columns;
use cells::row_sets::{UNMARKED, copy};
use compiled_paths::{Axis, Step};

// The rows on an axis from the marked ones; `from` may be used up.
// A `match` and no closure: each axis has a pass of its own.
fn axis_image(axis: Axis, parents: &[u16], from: &mut [u8], out: &mut [u8])
    requires { AxisPass parents.now from.old out.old }
    ensures { out.new ≡ written_marks (written_axis axis) parents.now from.old }
{
    match axis {
        Axis::SelfNode => copy(&from[..], out),
        Axis::Child => children(parents, &from[..], out),
        Axis::Descendant => descendants(parents, &from[..], out),
        Axis::DescendantOrSelf => descendants_or_self(parents, &from[..], out),
        Axis::Parent => parents_of(parents, &from[..], out),
        Axis::Ancestor => ancestors(parents, &from[..], out),
        Axis::AncestorOrSelf => ancestors_or_self(parents, &from[..], out),
        Axis::Following => following(parents, from, out),
        Axis::FollowingSibling => following_siblings(parents, from, out),
        Axis::Preceding => preceding(parents, from, out),
        Axis::PrecedingSibling => preceding_siblings(parents, &from[..], out),
    }
}

// The rows that a step leads to from the marked ones, before its condition; `next` is scratch.
pub fn step_forward(table: &Columns, step: Step, marks: &mut [u8], next: &mut [u8])
    requires { StepPass table.now.parents.now table.now.names.now marks.old next.old }
    ensures { marks.new ≡ forward_marks table.now.parents.now table.now.names.now step marks.old }
{
    axis_image(step.axis, table.parents, marks, next);
    filter_test(table.names, step.test, &next[..], marks);
}

// The rows from which a step leads to a marked one; `next` is scratch. Where no marked row passes the test there is none.
pub fn step_back(table: &Columns, step: Step, marks: &mut [u8], next: &mut [u8])
    requires { StepPass table.now.parents.now table.now.names.now marks.old next.old }
    ensures { marks.new ≡ backward_marks table.now.parents.now table.now.names.now step marks.old }
{
    filter_test(table.names, step.test, &marks[..], next);
    if !any_marked(&next[..]) {
        marks.fill(UNMARKED);
        return;
    }
    axis_image(inverse_of(step.axis), table.parents, next, marks);
}
