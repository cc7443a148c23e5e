// Cutting a table that is handed in to the names of 64 bits, into other lent columns.
ghost use Rattle.compiled_schema.specs.records.Records.{record_with};
ghost use Rattle.cut_table.specs.laws.Answers.{TableCutIn};
ghost use Rattle.tables.specs.Handed.{read_table};

use crate::answers::refuse;
use crate::handed::cut_lent;
use crate::schema_sets::schema_sets;
use cells::columns::{Columns, ColumnsMut};
use schema::Schema;
use schema_reader::is_schema_record;
use text::refusals::Refusal;

// Cuts a table to the names whose bits are in `word`: the rows kept, and then zeros; zeros alone on refusal by 1 or 18.
pub fn cut_table(
    schema: Schema,
    table: &Columns,
    count: usize,
    word: u64,
    out: &mut ColumnsMut,
) -> Result<usize, Refusal>
    ensures { TableCutIn (record_with schema.bytes schema.len) (read_table table.now count) word result out.old out.new }
{
    if !is_schema_record(schema) {
        return refuse(out);
    }
    cut_lent(&schema_sets(&schema), table, count, word, out)
}
