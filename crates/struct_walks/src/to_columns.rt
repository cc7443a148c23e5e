// The columns of a table that is handed in as structs.
ghost use Rattle.std.specs.Prelude.{map};
ghost use Rattle.row_structs.specs.Structs.{Laid, cells_in, columns_in};

use row_structs::{MAX_ROWS, Row, RowColumns};

// The first rows, as many as a table can have, laid in columns.
pub fn columns_of(rows: &[Row]) -> RowColumns
    ensures { Laid (map cells_in rows.now) (columns_in result) }
{
    let mut columns = RowColumns::empty();
    for i in 0..rows.len().min(MAX_ROWS) {
        let row = rows[i];
        columns.numbers[i] = row.number;
        columns.names[i] = row.name;
        columns.parents[i] = row.parent;
        columns.starts[i] = row.start;
        columns.lengths[i] = row.size;
        columns.decoded[i] = row.decoded;
    }
    columns
}
