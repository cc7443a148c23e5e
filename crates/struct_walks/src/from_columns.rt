// Columns of a table laid into lent row structs.
ghost use Rattle.std.specs.Prelude.{map, ◌≡◌, length};
ghost use Rattle.row_structs.specs.Structs.{cells_in, columns_in, empty_cells};
ghost use Rattle.table_spec.specs.Columns.{cells_at, cells_from};
ghost use Rattle.text_spec.specs.Limits.{max_nodes};

use row_structs::{MAX_ROWS, Row, RowColumns};

// Writes the rows of columns into lent structs, and zeros past the last cell.
pub fn put_rows(columns: &RowColumns, rows: &mut [Row])
    requires { cells_at (columns_in columns.now) max_nodes ≡ empty_cells }
    ensures { map cells_in rows.new ≡ cells_from (columns_in columns.now) 0 (length rows.old) }
{
    for i in 0..rows.len() {
        let k = i.min(MAX_ROWS);
        rows[i] = Row {
            number: columns.numbers[k],
            name: columns.names[k],
            parent: columns.parents[k],
            start: columns.starts[k],
            size: columns.lengths[k],
            decoded: columns.decoded[k],
        };
    }
}
