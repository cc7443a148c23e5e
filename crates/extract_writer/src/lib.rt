// Writing the extract of a table that is handed in, beside the text that is lent with it.
#![tactic(auto)]

pub mod answers;
pub mod decoded_texts;
pub mod fields;
pub mod rows;
pub mod writers;
pub mod writing;

ghost use Rattle.cells.specs.verdicts.Verdicts.{AnsweredSlice};
ghost use Rattle.compiled_schema.specs.records.Records.{record_with};
ghost use Rattle.library_spec.specs.Calls.{extract_written};
ghost use Rattle.tables.specs.Handed.{read_table};

use crate::answers::{refuse, write_in_room};
use cells::columns::Columns;
use compiled_schema::record_words::schema_words;
use schema::Schema;
use schema_reader::is_schema_record;
use tables::is_table_beside;
use text::refusals::Refusal;

// Writes the extract of the first `count` rows in the columns, whose texts are parts of `lent`.
pub fn write_extract(
    schema: Schema,
    table: &Columns,
    count: usize,
    lent: &[u8],
    out: &mut [u8],
) -> Result<usize, Refusal>
    ensures { AnsweredSlice (extract_written (record_with schema.bytes schema.len) (read_table table.now count) lent.now) result out }
{
    if !is_schema_record(schema) {
        return refuse(out);
    }
    let words = schema_words(&schema);
    if !is_table_beside(table, count, &words, lent) {
        return refuse(out);
    }
    write_in_room(lent, &table.first(count), out)
}
