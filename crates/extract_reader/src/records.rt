// Reading an extract under a schema's record, into lent columns.
ghost use Rattle.std.specs.Prelude.{◌≡◌};
ghost use Rattle.cells.specs.columns.Lent.{lent_columns};
ghost use Rattle.cells.specs.verdicts.Verdicts.{verdict};
ghost use Rattle.compiled_schema.specs.records.Records.{record_with};
ghost use Rattle.extract_reader.specs.records.Calls.{LeftRows};
ghost use Rattle.library_spec.specs.Calls.{extract_read};
ghost use Rattle.table_spec.specs.Columns.{sizes_of};

use crate::table::read_extract_table;
use cells::columns::ColumnsMut;
use compiled_schema::record_words::schema_words;
use schema::Schema;
use schema_reader::is_schema_record;
use text::refusals::{Reason, Refusal};

pub fn read_extract(
    schema: Schema,
    extract: &[u8],
    columns: &mut ColumnsMut,
) -> Result<usize, Refusal>
    ensures value { result ≡ verdict (extract_read (record_with schema.bytes schema.len) extract.now (sizes_of (lent_columns columns.old))) }
    ensures left_rows { LeftRows (extract_read (record_with schema.bytes schema.len) extract.now) columns.old columns.new }
{
    if is_schema_record(schema) && columns.are_equal() {
        let words = schema_words(&schema);
        return read_extract_table(extract, &words, columns);
    }
    columns.clear();
    Err(Refusal::of(Reason::BadRecord))
}
