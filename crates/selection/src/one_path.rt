// The numbers that one compiled path selects on a table in columns, in lent cells.
ghost use Rattle.axis_passes.specs.rows.Rows.{parents_in, names_of};
ghost use Rattle.axis_passes.specs.scratch.Scratch.{Kept};
ghost use Rattle.cells.specs.lent.Appended.{Appended};
ghost use Rattle.compiled_paths.specs.Steps.{path_at};
ghost use Rattle.selection_laws.specs.marks.Selection.{select_columns};
ghost use Rattle.selection.specs.one_path.Paths.{OnePass};

use crate::row_numbers::append;
use crate::select_path;
use axis_passes::rows::Rows;
use axis_passes::scratch::Scratch;
use compiled_paths::CompiledPaths;

// Writes the numbers that the path `i` selects into the cells from `at` on, as far as there is room, and gives the cell past them. On an
// empty table nothing is selected. `marks` is scratch, too, a byte for each row.
pub fn select_one(
    rows: &Rows,
    paths: &CompiledPaths,
    i: usize,
    items: &mut [u16],
    at: usize,
    marks: &mut [u8],
    scratch: &mut Scratch,
) -> usize
    requires { OnePass rows.now paths.now i at marks.old scratch.old }
    ensures items { Appended items.old at (select_columns (parents_in rows.now) (names_of rows.now) rows.now.columns.numbers.now (path_at paths.now.steps paths.now.conditions paths.now.paths i)) result items.new }
    ensures kept { Kept scratch.old scratch.new }
{
    if rows.columns.parents.is_empty() {
        return at;
    }
    select_path(rows, paths, i, marks, scratch);
    append(rows.columns.numbers, &marks[..], items, at)
}
