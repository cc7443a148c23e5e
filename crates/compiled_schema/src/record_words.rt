// What each element of a schema holds, from the schema's record.
ghost use Rattle.std.specs.Prelude.{◌≤◌, take};
ghost use Rattle.schema_spec.specs.Records.{schema_in};
ghost use Rattle.schema_spec.specs.Types.{types_of};
ghost use Rattle.table_laws.specs.passes.Codes.{HeldWords};
ghost use Rattle.text_spec.specs.Limits.{max_schema_bytes};

use names::MAX_ELEMENTS;
use schema::Schema;

// For each element the names that it holds, as the bits of a word. The record is one that has passed its test.
pub fn schema_words(schema: &Schema) -> [u64; MAX_ELEMENTS]
    requires { schema.now.len ≤ max_schema_bytes }
    ensures { HeldWords (types_of (schema_in (take schema.now.len schema.now.bytes))) result }
{
    crate::compile(&schema.bytes[..schema.len]).held_words()
}
