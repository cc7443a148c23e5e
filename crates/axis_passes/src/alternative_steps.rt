// An alternative of a condition of a compiled path judged for all rows at once, from its last step back.
ghost use Rattle.std.specs.Prelude.{◌≡◌, ◌-◌};
ghost use Rattle.axis_passes.specs.alternative_steps.Alternatives.{AlternativePass};
ghost use Rattle.axis_passes.specs.rows.Rows.{parents_in, names_of};
ghost use Rattle.axis_passes.specs.scratch.Scratch.{Kept};
ghost use Rattle.cells.specs.row_sets.Columns.{union};
ghost use Rattle.compiled_paths.specs.Steps.{plain_in};
ghost use Rattle.selection_laws.specs.marks.Selection.{alternative_marks};

use crate::mark_sets::unite;
use crate::rows::Rows;
use crate::scratch::Scratch;
use crate::steps::step_back;
use cells::row_sets::MARKED;
use compiled_paths::CompiledPaths;
use std::ops::Range;

// Adds the rows from which these steps lead to some row to those that are held.
pub fn alternative(rows: &Rows, paths: &CompiledPaths, steps: Range<usize>, scratch: &mut Scratch)
    requires { AlternativePass rows.now steps.start steps.end scratch.old }
    ensures held { scratch.new.held.now ≡ union scratch.old.held.now (alternative_marks (parents_in rows.now) (names_of rows.now) (plain_in paths.now.steps (steps.end - steps.start) steps.start)) }
    ensures kept { Kept scratch.old scratch.new }
{
    scratch.steps.fill(MARKED);
    for k in (steps.start..steps.end).rev() {
        let step = paths.steps[k];
        step_back(&rows.columns, step, scratch.steps, scratch.next);
    }
    let reached = &mut *scratch.steps;
    unite(reached, scratch.held);
}
