// The chain of tags of a row of a table that is handed in with a schema's record, in lent bytes.
ghost use Rattle.cells.specs.verdicts.Verdicts.{AnsweredSlice};
ghost use Rattle.compiled_schema.specs.records.Records.{record_with};
ghost use Rattle.library_spec.specs.Calls.{row_chain};
ghost use Rattle.tables.specs.Handed.{read_table};

use crate::handed::chain_lent;
use cells::columns::Columns;
use schema::Schema;
use schema_reader::is_schema_record;
use text::refusals::{Reason, Refusal};

// The chain of tags from the root down to the row at a position: its bytes, and then zeros; zeros alone on refusal by 1 or 18.
pub fn row_chain(
    schema: Schema,
    table: &Columns,
    count: usize,
    position: usize,
    out: &mut [u8],
) -> Result<usize, Refusal>
    ensures { AnsweredSlice (row_chain (record_with schema.bytes schema.len) (read_table table.now count) position) result out }
{
    if !is_schema_record(schema) {
        out.fill(0);
        return Err(Refusal::of(Reason::BadRecord));
    }
    chain_lent(&schema.bytes[..schema.len], table, count, position, out)
}
