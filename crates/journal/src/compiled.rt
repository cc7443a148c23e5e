// The journal's reader over a compiled schema, with every lent cell at exit.
ghost use Rattle.std.specs.Prelude.{◌≤◌, ◌<◌};
ghost use Rattle.cells.specs.columns.Columns.{EqualColumns};
ghost use Rattle.cells.specs.columns.Lent.{lent_columns};
ghost use Rattle.compiled_schema.specs.Compiled.{CompiledOf};
ghost use Rattle.journal_builder.specs.journal_schema.Entries.{Sized};
ghost use Rattle.journal_lexer.specs.state.Places.{no_place};
ghost use Rattle.journal_reader.specs.rows.Kept.{Kept};
ghost use Rattle.journal.specs.compiled.Compiled.{CompiledRead};
ghost use Rattle.journal.specs.compiled.Tables.{TableRead};
ghost use Rattle.schema_spec.specs.Records.{schema_in};
ghost use Rattle.text_spec.specs.Limits.{max_declarations};

use cells::columns::ColumnsMut;
use compiled_schema::CompiledSchema;
use journal_builder::journal_schema::JournalSchema;
use journal_reader::event_loop;
use text::refusals::Refusal;

// Reads into cleared columns under a length limit, 2 first and 18 last; they are cleared again where the text is refused.
fn read_table(
    text: &[u8],
    limit: usize,
    schema: &JournalSchema,
    columns: &mut ColumnsMut,
) -> Result<usize, Refusal>
    requires { (limit < no_place) × EqualColumns (lent_columns columns.old) × Sized schema.now.compiled.now × (schema.now.names.count ≤ max_declarations) }
    ensures same { Kept columns.old columns.new }
    ensures read { TableRead schema.now text.now limit (lent_columns columns.old) (lent_columns columns.new) result }
{
    columns.clear();
    let read = event_loop::judge(text, limit, schema, columns);
    if read.is_err() {
        columns.clear();
    }
    read
}

// How many rows a journal text of at most `limit` bytes has under the schema in a text, with the rows in the columns.
pub fn read_compiled(
    schema: &[u8],
    compiled: &CompiledSchema,
    journal: &[u8],
    limit: usize,
    columns: &mut ColumnsMut,
) -> Result<usize, Refusal>
    requires { CompiledOf schema.now (schema_in schema.now) compiled.now × (limit < no_place) × EqualColumns (lent_columns columns.old) }
    ensures same { Kept columns.old columns.new }
    ensures read { CompiledRead schema.now journal.now limit (lent_columns columns.old) (lent_columns columns.new) result }
{
    let schema = JournalSchema::new(schema, compiled);
    read_table(journal, limit, &schema, columns)
}
