// Cutting a table that is handed in as row structs, by a schema's record, into other lent structs.
ghost use Rattle.std.specs.Prelude.{map, ◌≡◌, Err, length};
ghost use Rattle.cells.specs.lent.Ends.{entry_sizes, exit_columns};
ghost use Rattle.cells.specs.verdicts.Verdicts.{verdict};
ghost use Rattle.compiled_schema.specs.records.Records.{record_with};
ghost use Rattle.cut_table.specs.laws.Answers.{AnsweredTable};
ghost use Rattle.library_spec.specs.Calls.{structs_after, table_cut, table_cut_rows};
ghost use Rattle.row_structs.specs.Structs.{cells_in};
ghost use Rattle.tables.specs.Handed.{read_table};
ghost use Rattle.text.specs.declared.refusals.Reason.TheVariants.{BadRecord};
ghost use Rattle.text.specs.refusals.Refusals.{refusal};
ghost use Rattle.text_spec.specs.Refusals.{refused, at, bad_record};

use cells::columns::{Columns, ColumnsMut};
use cut_table::records::cut_table;
use row_structs::{CELLS, MAX_ROWS, Row, RowColumns};
use schema::Schema;
use struct_walks::from_columns::put_rows;
use struct_walks::to_columns::columns_of;
use tables::row_counts::are_too_many;
use text::refusals::{Reason, Refusal};

// Cuts a table into lent columns.
// Six columns and no struct of them: of a part of an array that is lent inside a struct only the length is known afterwards, so that no proof of the caller closes.
fn cut_into(
    schema: Schema,
    table: &Columns,
    count: usize,
    word: u64,
    numbers: &mut [u16],
    names: &mut [u8],
    parents: &mut [u16],
    starts: &mut [u32],
    lengths: &mut [u16],
    decoded: &mut [u16],
) -> Result<usize, Refusal>
    ensures { AnsweredTable (table_cut (record_with schema.bytes schema.len) (read_table table.now count) word (entry_sizes numbers names parents starts lengths decoded)) (entry_sizes numbers names parents starts lengths decoded) result (exit_columns numbers names parents starts lengths decoded) }
{
    let mut columns = ColumnsMut {
        numbers,
        names,
        parents,
        starts,
        lengths,
        decoded,
    };
    cut_table(schema, table, count, word, &mut columns)
}

// Refusal 1, with every lent struct cleared.
fn refused_rows(rows: &mut [Row]) -> Result<usize, Refusal>
    ensures value { result ≡ Err (refusal BadRecord 0) }
    ensures rows_after { map cells_in rows.new ≡ structs_after (length rows.old) (refused (at bad_record 0)) }
{
    put_rows(&RowColumns::empty(), rows);
    Err(Refusal::of(Reason::BadRecord))
}

// Cuts the rows, which are laid in columns first, to the names in 64 bits. More than a table can have are refused at once.
pub fn cut_table_rows(
    schema: Schema,
    rows: &[Row],
    word: u64,
    out: &mut [Row],
) -> Result<usize, Refusal>
    ensures value { result ≡ verdict (table_cut_rows (record_with schema.bytes schema.len) (map cells_in rows.now) word (length out.old)) }
    ensures out_after { map cells_in out.new ≡ structs_after (length out.old) (table_cut_rows (record_with schema.bytes schema.len) (map cells_in rows.now) word (length out.old)) }
{
    if are_too_many(rows.len()) {
        return refused_rows(out);
    }
    let laid = columns_of(rows);
    let size = out.len().min(MAX_ROWS);
    // The same arrays as in struct_reading, and no function for both: it would lend parts of them inside a struct (see `cut_into`).
    let mut numbers = [0u16; CELLS];
    let mut names = [0u8; CELLS];
    let mut parents = [0u16; CELLS];
    let mut starts = [0u32; CELLS];
    let mut lengths = [0u16; CELLS];
    let mut decoded = [0u16; CELLS];
    let answer = cut_into(
        schema,
        &laid.as_columns(),
        rows.len(),
        word,
        &mut numbers[..size],
        &mut names[..size],
        &mut parents[..size],
        &mut starts[..size],
        &mut lengths[..size],
        &mut decoded[..size],
    );
    let columns = RowColumns {
        numbers,
        names,
        parents,
        starts,
        lengths,
        decoded,
    };
    put_rows(&columns, out);
    answer
}
