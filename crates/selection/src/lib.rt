// The rows that a compiled path selects, marked: its steps one after the other from the root.
#![tactic(auto)]

pub mod answers;
pub mod asked;
pub mod first_paths;
pub mod joined_paths;
pub mod lent;
pub mod one_path;
pub mod records;
pub mod row_numbers;
pub mod table;

ghost use Rattle.std.specs.Prelude.{◌≡◌, ◌-◌, length};
ghost use Rattle.axis_passes.specs.rows.Rows.{parents_in, names_of};
ghost use Rattle.axis_passes.specs.scratch.Scratch.{Kept};
ghost use Rattle.compiled_paths.specs.Steps.{steps_in, path_at};
ghost use Rattle.selection_laws.specs.marks.Selection.{steps_marks, path_marks, root_marks};
ghost use Rattle.selection.specs.Steps.{StepsPass, RootStepsPass, PathPass};

use axis_passes::mark_sets::any_marked;
use axis_passes::root::mark_root;
use axis_passes::rows::Rows;
use axis_passes::scratch::Scratch;
use axis_passes::written_steps::{first_step, step};
use compiled_paths::CompiledPaths;
use std::ops::Range;

// The rows that these written steps lead to from the marked ones. From no row nothing is reached.
fn steps_from(
    rows: &Rows,
    paths: &CompiledPaths,
    steps: Range<usize>,
    marks: &mut [u8],
    scratch: &mut Scratch,
)
    requires { StepsPass rows.now paths.now steps.start steps.end marks.old scratch.old }
    ensures marks { marks.new ≡ steps_marks (parents_in rows.now) (names_of rows.now) (steps_in paths.now.steps paths.now.conditions (steps.end - steps.start) steps.start) marks.old }
    ensures kept { Kept scratch.old scratch.new }
{
    for k in steps.start..steps.end {
        if !any_marked(&marks[..]) {
            return;
        }
        step(rows, paths, k, marks, scratch);
    }
}

// The rows that these written steps lead to from the root.
fn steps_from_root(
    rows: &Rows,
    paths: &CompiledPaths,
    steps: Range<usize>,
    marks: &mut [u8],
    scratch: &mut Scratch,
)
    requires { RootStepsPass rows.now paths.now steps.start steps.end marks.old scratch.old }
    ensures marks { marks.new ≡ steps_marks (parents_in rows.now) (names_of rows.now) (steps_in paths.now.steps paths.now.conditions (steps.end - steps.start) steps.start) (root_marks (length (parents_in rows.now))) }
    ensures kept { Kept scratch.old scratch.new }
{
    if steps.start == steps.end {
        mark_root(marks);
        return;
    }
    first_step(rows, paths, steps.start, marks, scratch);
    steps_from(rows, paths, steps.start + 1..steps.end, marks, scratch);
}

// The rows of a table that is not empty that the path `i` selects.
pub fn select_path(
    rows: &Rows,
    paths: &CompiledPaths,
    i: usize,
    marks: &mut [u8],
    scratch: &mut Scratch,
)
    requires { PathPass rows.now paths.now i marks.old scratch.old }
    ensures marks { marks.new ≡ path_marks (parents_in rows.now) (names_of rows.now) (path_at paths.now.steps paths.now.conditions paths.now.paths i) }
    ensures kept { Kept scratch.old scratch.new }
{
    steps_from_root(rows, paths, paths.path(i), marks, scratch);
}
