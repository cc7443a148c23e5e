// All rows of an extract, read into clear columns.
ghost use Rattle.std.specs.Prelude.{[], ◌≡◌};
ghost use Rattle.cells.specs.columns.Columns.{EqualColumns, with_row};
ghost use Rattle.cells.specs.columns.Lent.{lent_columns, Same, Left};
ghost use Rattle.extract_reader.specs.field_rows.Steps.{row_cells};
ghost use Rattle.extract_reader.specs.reading.Readers.{BitWidths};
ghost use Rattle.extract_reader.specs.rows.Reads.{Hold, ReadsNext, ReadOn};
ghost use Rattle.extract_reader.specs.rows.Whole.{RowsRead};
ghost use Rattle.table_spec.specs.Columns.{sizes_of};

use crate::field_rows::FieldRow;
use crate::fields::begins_with_root;
use crate::reading::Reader;
use cells::columns::ColumnsMut;
use names::MAX_ELEMENTS;
use text::refusals::{Reason, Refusal};

// Puts the row n, if the columns have room for it.
// Beside the `put_row` of the columns: the number is the field's, not the row's.
fn put_row(columns: &mut ColumnsMut, n: usize, row: FieldRow)
    requires { EqualColumns (lent_columns columns.old) }
    ensures { Left columns.old columns.new (with_row (lent_columns columns.old) n (row_cells row)) }
{
    if n < columns.numbers.len() {
        columns.numbers[n] = row.number;
        columns.names[n] = row.name;
        columns.parents[n] = row.parent;
        columns.starts[n] = row.start;
        columns.lengths[n] = row.size;
        columns.decoded[n] = row.size;
    }
}

// Reads the row of the next field into the columns: whether there is one.
pub fn read_row(reader: &mut Reader, columns: &mut ColumnsMut) -> Result<bool, Refusal>
    requires { ReadsNext reader.old columns.old }
    ensures same { Same columns.old columns.new }
    ensures read { ReadOn reader.old columns.old reader.new columns.new result }
    ensures widths { BitWidths reader.old → BitWidths reader.new }
{
    let n = reader.carried.rows;
    match reader.next_row()? {
        Some(row) => {
            put_row(columns, n, row);
            Ok(true)
        }
        None => Ok(false),
    }
}

// Reads the rows, and gives how many they are.
// A `while`: it goes on until the reader says that no field is left.
pub fn read_rows(
    extract: &[u8],
    words: &[u64; MAX_ELEMENTS],
    columns: &mut ColumnsMut,
) -> Result<usize, Refusal>
    requires equal { EqualColumns (lent_columns columns.old) }
    requires clear { Hold (lent_columns columns.old) [] }
    ensures same { Same columns.old columns.new }
    ensures sizes { sizes_of (lent_columns columns.new) ≡ sizes_of (lent_columns columns.old) }
    ensures read { RowsRead extract.now words.now (sizes_of (lent_columns columns.old)) (lent_columns columns.new) result }
{
    let Some(root) = begins_with_root(extract) else {
        return Err(Refusal::of(Reason::BadExtract));
    };
    if !root {
        return Ok(0);
    }
    let mut reader = Reader::after_root(extract, words);
    while read_row(&mut reader, columns)? {}
    Ok(reader.carried.rows)
}
