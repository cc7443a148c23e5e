// Reading schema texts: the judgement, and the schema in its record, which is the text's normal form.
#![tactic(auto)]

pub mod declaration_judging;
pub mod declared_names;
pub mod name_judging;
pub mod normal_form;
pub mod record_cells;
pub mod text_judging;

ghost use Rattle.std.specs.Prelude.{◌≡◌};
ghost use Rattle.schema_reader.specs.Records.{ReadAs, passes_record};

use schema::Schema;
use text::refusals::Refusal;

// The number of elements or the refusal, and the record, which is handed back either way: the empty one on refusal.
#[derive(Drop)]
pub struct SchemaRead {
    pub judgement: Result<usize, Refusal>,
    pub schema: Schema,
}

// Reads a schema text: the refusal that comes first, or the schema.
pub fn read_schema(text: &[u8]) -> SchemaRead
    ensures { ReadAs text.now result }
{
    let judgement = text_judging::judge_schema(text);
    let schema = record_cells::record_of(text, judgement);
    SchemaRead { judgement, schema }
}

// Whether the record is one that `read_schema` can hand back for an accepted text: reading it again gives it again.
pub fn is_schema_record(schema: Schema) -> bool
    ensures { result ≡ passes_record schema.bytes schema.len }
{
    if Schema::MAX_BYTES < schema.len {
        return false;
    }
    let read = read_schema(&schema.bytes[..schema.len]);
    match read.judgement {
        Ok(_) => read.schema.len == schema.len && read.schema.bytes == schema.bytes,
        Err(_) => false,
    }
}
