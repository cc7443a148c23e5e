// Reading a journal under a schema's record into lent row structs.
ghost use Rattle.std.specs.Prelude.{map, ◌≡◌, length};
ghost use Rattle.cells.specs.lent.Ends.{entry_sizes, exit_columns};
ghost use Rattle.cells.specs.verdicts.Verdicts.{verdict};
ghost use Rattle.compiled_schema.specs.records.Records.{record_with};
ghost use Rattle.library_spec.specs.Calls.{columns_after, journal_read, journal_read_rows, structs_after};
ghost use Rattle.row_structs.specs.Structs.{cells_in};

use cells::columns::ColumnsMut;
use journal::records::read_journal;
use row_structs::{CELLS, MAX_ROWS, Row, RowColumns};
use schema::Schema;
use struct_walks::from_columns::put_rows;
use text::refusals::Refusal;

// Reads a journal into lent columns.
// Six columns and no struct of them: of a part of an array that is lent inside a struct only the length is known afterwards, so that no proof of the caller closes.
fn read_into(
    schema: Schema,
    text: &[u8],
    numbers: &mut [u16],
    names: &mut [u8],
    parents: &mut [u16],
    starts: &mut [u32],
    lengths: &mut [u16],
    decoded: &mut [u16],
) -> Result<usize, Refusal>
    ensures value { result ≡ verdict (journal_read (record_with schema.bytes schema.len) text.now (entry_sizes numbers names parents starts lengths decoded)) }
    ensures left { exit_columns numbers names parents starts lengths decoded ≡ columns_after (entry_sizes numbers names parents starts lengths decoded) (λ rows. rows) (journal_read (record_with schema.bytes schema.len) text.now (entry_sizes numbers names parents starts lengths decoded)) }
{
    let mut columns = ColumnsMut {
        numbers,
        names,
        parents,
        starts,
        lengths,
        decoded,
    };
    read_journal(schema, text, &mut columns)
}

// Reads a journal under a schema's record into lent row structs: the rows and then zeros, all zeros on refusal.
pub fn read_journal_rows(schema: Schema, text: &[u8], rows: &mut [Row]) -> Result<usize, Refusal>
    ensures value { result ≡ verdict (journal_read_rows (record_with schema.bytes schema.len) text.now (length rows.old)) }
    ensures rows_after { map cells_in rows.new ≡ structs_after (length rows.old) (journal_read_rows (record_with schema.bytes schema.len) text.now (length rows.old)) }
{
    let size = rows.len().min(MAX_ROWS);
    // The same arrays as in struct_cutting, and no function for both: it would lend parts of them inside a struct (see `read_into`).
    let mut numbers = [0u16; CELLS];
    let mut names = [0u8; CELLS];
    let mut parents = [0u16; CELLS];
    let mut starts = [0u32; CELLS];
    let mut lengths = [0u16; CELLS];
    let mut decoded = [0u16; CELLS];
    let answer = read_into(
        schema,
        text,
        &mut numbers[..size],
        &mut names[..size],
        &mut parents[..size],
        &mut starts[..size],
        &mut lengths[..size],
        &mut decoded[..size],
    );
    let columns = RowColumns {
        numbers,
        names,
        parents,
        starts,
        lengths,
        decoded,
    };
    put_rows(&columns, rows);
    answer
}
