// A condition of a compiled path judged for all rows at once.
ghost use Rattle.std.specs.Prelude.{◌≡◌, ◌-◌};
ghost use Rattle.axis_passes.specs.conditions.Conditions.{KeepPass};
ghost use Rattle.axis_passes.specs.rows.Rows.{parents_in, names_of};
ghost use Rattle.axis_passes.specs.scratch.Scratch.{Kept};
ghost use Rattle.cells.specs.row_sets.Columns.{intersection};
ghost use Rattle.compiled_paths.specs.Steps.{condition_in};
ghost use Rattle.selection_laws.specs.marks.Selection.{condition_marks};

use crate::alternatives::condition;
use crate::mark_sets::{any_marked, intersect};
use crate::rows::Rows;
use crate::scratch::Scratch;
use compiled_paths::CompiledPaths;
use std::ops::Range;

// Keeps the rows where a condition holds whose alternatives take these steps; no steps are no condition. Where no row is marked nothing is judged.
pub fn keep(
    rows: &Rows,
    paths: &CompiledPaths,
    steps: Range<usize>,
    marks: &mut [u8],
    scratch: &mut Scratch,
)
    requires { KeepPass rows.now steps.start steps.end marks.old scratch.old }
    ensures marks { marks.new ≡ intersection marks.old (condition_marks (parents_in rows.now) (names_of rows.now) (condition_in paths.now.steps (steps.end - steps.start) steps.start)) }
    ensures kept { Kept scratch.old scratch.new }
{
    if !steps.is_empty() && any_marked(&marks[..]) {
        condition(rows, paths, steps, scratch);
        intersect(&scratch.held[..], marks);
    }
}
