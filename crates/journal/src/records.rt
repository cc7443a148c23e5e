// Reading a journal under a schema's record into lent columns.
ghost use Rattle.std.specs.Prelude.{◌≡◌};
ghost use Rattle.cells.specs.columns.Lent.{lent_columns, Left};
ghost use Rattle.cells.specs.verdicts.Verdicts.{verdict};
ghost use Rattle.compiled_schema.specs.records.Records.{record_with};
ghost use Rattle.library_spec.specs.Calls.{columns_after, journal_read};
ghost use Rattle.table_spec.specs.Columns.{sizes_of};

use crate::compiled::read_compiled;
use cells::columns::ColumnsMut;
use schema::Schema;
use schema_reader::is_schema_record;
use text::limits::MAX_JOURNAL_BYTES;
use text::refusals::{Reason, Refusal};

// How many rows a journal text has, with a row for each node in the columns and then zeros; on refusal every cell is 0. 1 comes first: the record is
// none that its reader hands back, or the columns are not of one length.
pub fn read_journal(schema: Schema, text: &[u8], columns: &mut ColumnsMut) -> Result<usize, Refusal>
    ensures value { result ≡ verdict (journal_read (record_with schema.bytes schema.len) text.now (sizes_of (lent_columns columns.old))) }
    ensures left { Left columns.old columns.new (columns_after (sizes_of (lent_columns columns.old)) (λ rows. rows) (journal_read (record_with schema.bytes schema.len) text.now (sizes_of (lent_columns columns.old)))) }
{
    if !is_schema_record(schema) || !columns.are_equal() {
        columns.clear();
        return Err(Refusal::of(Reason::BadRecord));
    }
    let declared = &schema.bytes[..schema.len];
    let compiled = compiled_schema::compile(declared);
    read_compiled(declared, &compiled, text, MAX_JOURNAL_BYTES, columns)
}
