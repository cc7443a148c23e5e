// The text of a row of a table that is handed in: its part of the text that is lent beside the table.
ghost use Rattle.std.specs.Prelude.{◌≡◌};
ghost use Rattle.cells.specs.columns.Lent.{read_columns};
ghost use Rattle.compiled_schema.specs.records.Records.{record_with};
ghost use Rattle.library_spec.specs.Calls.{row_text, part_after};
ghost use Rattle.tables.specs.Handed.{read_table};
ghost use Rattle.tables.specs.row_text.Answers.{text_of, text_outcome};
ghost use Rattle.tables.specs.rows.Lent.{Lent};

use crate::is_table_beside;
use crate::row_tests::is_text;
use cells::columns::Columns;
use compiled_schema::record_words::schema_words;
use schema::Schema;
use schema_reader::is_schema_record;
use text::refusals::{Reason, Refusal};

// Where the text of a row stands in the lent text, its length there, and how many characters it decodes to.
#[derive(Clone, Copy)]
pub struct TextPlace {
    pub start: usize,
    pub size: usize,
    pub decoded: usize,
}

// The text of a row of a table that has passed its test; none for an element.
fn text_of(table: &Columns, count: usize, position: usize) -> Result<Option<TextPlace>, Refusal>
    requires { Lent (read_columns table.now) count }
    ensures { result ≡ text_of (read_columns table.now) count position }
{
    if count <= position {
        return Err(Refusal::of(Reason::BadRecord));
    }
    if !is_text(table.names[position]) {
        return Ok(None);
    }
    Ok(Some(TextPlace {
        start: table.starts[position] as usize,
        size: table.lengths[position] as usize,
        decoded: table.decoded[position] as usize,
    }))
}

// Where the text of a row stands in the text that is lent beside the table; none for an element.
pub fn row_text_place(
    schema: Schema,
    table: &Columns,
    count: usize,
    lent: &[u8],
    position: usize,
) -> Result<Option<TextPlace>, Refusal>
    ensures { text_outcome result ≡ row_text (record_with schema.bytes schema.len) (read_table table.now count) lent.now position }
{
    if !is_schema_record(schema) || !is_table_beside(table, count, &schema_words(&schema), lent) {
        return Err(Refusal::of(Reason::BadRecord));
    }
    text_of(table, count, position)
}

// The text of a row as that part of the lent text: empty for an element, and on refusal.
pub fn row_text<'a>(
    schema: Schema,
    table: &Columns,
    count: usize,
    lent: &'a [u8],
    position: usize,
) -> &'a [u8]
    ensures { result.now ≡ part_after lent.now (row_text (record_with schema.bytes schema.len) (read_table table.now count) lent.now position) }
{
    match row_text_place(schema, table, count, lent, position) {
        Ok(Some(place)) => &lent[place.start..place.start + place.size],
        Ok(None) => &lent[..0],
        Err(_) => &lent[..0],
    }
}
