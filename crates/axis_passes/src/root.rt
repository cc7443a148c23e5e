// The first step of a path: an axis from the root needs no pass over marks. Every other row is below the root, none is above it, before it or after it.
ghost use Rattle.std.specs.Prelude.{not, ◌≡◌, ◌<◌, eqb, length};
ghost use Rattle.axis_passes.specs.root.Roots.{RootPass, FirstPass};
ghost use Rattle.axis_passes.specs.steps.Steps.{forward_marks};
ghost use Rattle.cells.specs.row_sets.Columns.{marks};
ghost use Rattle.compiled_paths.specs.Steps.{written_axis};
ghost use Rattle.path_spec.specs.Paths.{child};
ghost use Rattle.selection_laws.specs.marks.Roots.{root_image};
ghost use Rattle.selection_laws.specs.marks.Selection.{written_marks, root_marks};

use crate::name_tests::filter_test;
use cells::columns::Columns;
use cells::row_sets::{MARKED, UNMARKED};
use compiled_paths::{Axis, Step};

// The root alone.
pub fn mark_root(out: &mut [u8])
    requires { 0 < length out.old }
    ensures { out.new ≡ root_marks (length out.old) }
{
    out.fill(UNMARKED);
    out[0] = MARKED;
}

// Every row but the root.
fn mark_later(out: &mut [u8])
    requires { 0 < length out.old }
    ensures { out.new ≡ marks (length out.old) (λ r. not (eqb r 0)) }
{
    out.fill(MARKED);
    out[0] = UNMARKED;
}

// The root's children.
fn mark_children(parents: &[u16], out: &mut [u8])
    requires { RootPass parents.now out.old }
    ensures { out.new ≡ marks (length parents.now) (root_image child parents.now) }
{
    for (r, parent) in parents.iter().enumerate() {
        out[r] = u8::from(*parent == 0);
    }
    out[0] = UNMARKED;
}

// The rows on an axis from the root.
// A `match` and no closure: an axis from the root fills the cells in a way of its own.
fn root_image(axis: Axis, parents: &[u16], out: &mut [u8])
    requires { RootPass parents.now out.old }
    ensures { out.new ≡ written_marks (written_axis axis) parents.now (root_marks (length parents.now)) }
{
    match axis {
        Axis::SelfNode | Axis::AncestorOrSelf => mark_root(out),
        Axis::Child => mark_children(parents, out),
        Axis::Descendant => mark_later(out),
        Axis::DescendantOrSelf => out.fill(MARKED),
        Axis::Parent | Axis::Ancestor => out.fill(UNMARKED),
        Axis::Following | Axis::FollowingSibling => out.fill(UNMARKED),
        Axis::Preceding | Axis::PrecedingSibling => out.fill(UNMARKED),
    }
}

// The rows that a step leads to from the root, before its condition; `next` is scratch.
pub fn step_from_root(table: &Columns, step: Step, marks: &mut [u8], next: &mut [u8])
    requires { FirstPass table.now.parents.now table.now.names.now marks.old next.old }
    ensures { marks.new ≡ forward_marks table.now.parents.now table.now.names.now step (root_marks (length table.now.parents.now)) }
{
    root_image(step.axis, table.parents, next);
    filter_test(table.names, step.test, &next[..], marks);
}
