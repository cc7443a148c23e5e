// A written step of a compiled path for all rows at once, its condition included: from marked rows, or from the root.
ghost use Rattle.std.specs.Prelude.{◌≡◌, length};
ghost use Rattle.axis_passes.specs.rows.Rows.{parents_in, names_of};
ghost use Rattle.axis_passes.specs.scratch.Scratch.{Kept};
ghost use Rattle.axis_passes.specs.written_steps.Steps.{StepAtPass, FirstAtPass};
ghost use Rattle.compiled_paths.specs.Steps.{step_at};
ghost use Rattle.selection_laws.specs.marks.Selection.{step_marks, root_marks};

use crate::conditions::keep;
use crate::root::step_from_root;
use crate::rows::Rows;
use crate::scratch::Scratch;
use crate::steps::step_forward;
use compiled_paths::CompiledPaths;

// The rows that the written step `k` leads to from the marked ones.
pub fn step(rows: &Rows, paths: &CompiledPaths, k: usize, marks: &mut [u8], scratch: &mut Scratch)
    requires { StepAtPass rows.now paths.now k marks.old scratch.old }
    ensures marks { marks.new ≡ step_marks (parents_in rows.now) (names_of rows.now) (step_at paths.now.steps paths.now.conditions k) marks.old }
    ensures kept { Kept scratch.old scratch.new }
{
    step_forward(&rows.columns, paths.steps[k], marks, scratch.next);
    keep(rows, paths, paths.condition(k), marks, scratch);
}

// The rows that the written step `k` leads to from the root.
// Two functions of two lines: `step` starts from marks, this from the root, which needs no pass over marks.
pub fn first_step(
    rows: &Rows,
    paths: &CompiledPaths,
    k: usize,
    marks: &mut [u8],
    scratch: &mut Scratch,
)
    requires { FirstAtPass rows.now paths.now k marks.old scratch.old }
    ensures marks { marks.new ≡ step_marks (parents_in rows.now) (names_of rows.now) (step_at paths.now.steps paths.now.conditions k) (root_marks (length (parents_in rows.now))) }
    ensures kept { Kept scratch.old scratch.new }
{
    step_from_root(&rows.columns, paths.steps[k], marks, scratch.next);
    keep(rows, paths, paths.condition(k), marks, scratch);
}
