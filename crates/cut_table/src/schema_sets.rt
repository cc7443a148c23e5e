// What cutting takes from a schema's record.
ghost use Rattle.std.specs.Prelude.{◌≤◌, take};
ghost use Rattle.cut_table.specs.schema_sets.Sets.{SetsOf};
ghost use Rattle.schema_spec.specs.Records.{schema_in};
ghost use Rattle.text_spec.specs.Limits.{max_schema_bytes};

use compiled_schema::compile;
use names::{MAX_ELEMENTS, NameSet};
use schema::Schema;

// For each element the names that it holds, as the bits of a word, and all names.
#[derive(Drop)]
pub struct SchemaSets {
    pub words: [u64; MAX_ELEMENTS],
    pub all: NameSet,
}

// Of a record that has passed its test.
pub fn schema_sets(schema: &Schema) -> SchemaSets
    requires { schema.now.len ≤ max_schema_bytes }
    ensures { SetsOf (schema_in (take schema.now.len schema.now.bytes)) result }
{
    let compiled = compile(&schema.bytes[..schema.len]);
    let words = compiled.held_words();
    let all = compiled.relations.names();
    SchemaSets { words, all }
}
