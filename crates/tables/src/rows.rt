// The rows of a table in one pass: whether they are a well-formed table, by its columns.
ghost use Rattle.std.specs.Prelude.{◌≡◌, ◌+◌, ◌-◌, ◌≤◌, get_or};
ghost use Rattle.cells.specs.columns.Lent.{read_columns};
ghost use Rattle.table_laws.specs.passes.Passes.{later_pass, rows_pass};
ghost use Rattle.table_spec.specs.Columns.{cells_at};
ghost use Rattle.tables.specs.rows.Lent.{Lent, RootAt, RowLent, row_in, row_fits};
ghost use Rattle.text_spec.specs.Limits.{max_depth};

use crate::later_rows::later_fits;
use crate::row_tests::{is_text, root_fits};
use cells::columns::{Columns, RowCells};
use names::MAX_ELEMENTS;

// The cells of a row, but for its number.
fn row_cells(table: &Columns, row: usize) -> RowCells
    requires { Lent (read_columns table.now) (row + 1) }
    ensures { row_in (get_or table.now.numbers.now row 0) result ≡ cells_at (read_columns table.now) row }
{
    RowCells {
        name: table.names[row],
        parent: table.parents[row],
        start: table.starts[row],
        size: table.lengths[row],
        decoded: table.decoded[row],
    }
}

// Whether a row fits after the row before it, under the row `parent`, whose depth this is.
fn row_fits(
    table: &Columns,
    words: &[u64; MAX_ELEMENTS],
    row: usize,
    parent: usize,
    depth: usize,
) -> bool
    requires { RowLent (read_columns table.now) row parent × (depth ≤ max_depth) }
    ensures { result ≡ row_fits (read_columns table.now) words.now row parent depth }
{
    let text = is_text(table.names[row - 1]);
    let word = words[table.names[parent] as usize];
    let cells = row_cells(table, row);
    later_fits(
        table.numbers[row - 1],
        text,
        word,
        depth,
        table.numbers[row],
        cells,
    )
}

// Whether the rows after the root fit. For each row the climb goes from the innermost open element up through the column of parents to the
// row's parent, and each step up undoes a depth that an earlier row added. The test stops at the first row whose parent is none of these.
fn later_rows_fit(table: &Columns, count: usize, words: &[u64; MAX_ELEMENTS]) -> bool
    requires { Lent (read_columns table.now) count × RootAt (read_columns table.now) count }
    ensures { result ≡ later_pass words.now (read_columns table.now) (count - 1) 0 0 1 }
{
    let mut element: usize = 0;
    let mut depth: usize = 1;
    let mut row: usize = 1;
    // A label and no `return`: document 01 asks for a loop that is left from inside by one (docs/PROMISES.md).
    // A `while` with a counter of its own: where it stopped tells whether all rows fit.
    'rows: while row < count {
        let parent = table.parents[row] as usize;
        // A `while`: it climbs by the column of parents.
        while element != parent {
            if depth == 1 {
                break 'rows;
            }
            element = table.parents[element] as usize;
            depth -= 1;
        }
        if !row_fits(table, words, row, element, depth) {
            break;
        }
        if !is_text(table.names[row]) {
            element = row;
            depth += 1;
        }
        row += 1;
    }
    row == count
}

// Whether the first `count` rows are a well-formed table. `words` has for each element the names that it holds.
pub fn rows_fit(table: &Columns, count: usize, words: &[u64; MAX_ELEMENTS]) -> bool
    requires { Lent (read_columns table.now) count }
    ensures { result ≡ rows_pass words.now (read_columns table.now) count }
{
    if count == 0 {
        return true;
    }
    root_fits(table.numbers[0], row_cells(table, 0)) && later_rows_fit(table, count, words)
}
