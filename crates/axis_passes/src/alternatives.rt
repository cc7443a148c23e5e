// The alternatives of a condition judged for all rows at once.
ghost use Rattle.std.specs.Prelude.{◌≡◌, ◌-◌, length};
ghost use Rattle.axis_passes.specs.alternatives.Alternatives.{ConditionPass};
ghost use Rattle.axis_passes.specs.rows.Rows.{parents_in, names_of};
ghost use Rattle.axis_passes.specs.scratch.Scratch.{Kept};
ghost use Rattle.compiled_paths.specs.Steps.{alternatives_in};
ghost use Rattle.selection_laws.specs.marks.Selection.{no_marks, alternatives_marks};

use crate::alternative_steps::alternative;
use crate::rows::Rows;
use crate::scratch::Scratch;
use cells::row_sets::UNMARKED;
use compiled_paths::CompiledPaths;
use std::ops::Range;

// Holds the rows from which one of the alternatives that take these steps leads to some row.
// A `while`: each turn goes on by the size of its alternative.
pub fn condition(rows: &Rows, paths: &CompiledPaths, steps: Range<usize>, scratch: &mut Scratch)
    requires { ConditionPass rows.now steps.start steps.end scratch.old }
    ensures held { scratch.new.held.now ≡ alternatives_marks (parents_in rows.now) (names_of rows.now) (no_marks (length (parents_in rows.now))) (alternatives_in paths.now.steps (steps.end - steps.start) steps.start) }
    ensures kept { Kept scratch.old scratch.new }
{
    scratch.held.fill(UNMARKED);
    let mut k = steps.start;
    while k < steps.end {
        let size = paths.first_size(k, steps.end - k);
        alternative(rows, paths, k..k + size, scratch);
        k += size;
    }
}
