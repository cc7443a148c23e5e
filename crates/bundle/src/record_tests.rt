// The test of a bundle's record under a schema's: refusal 1.
ghost use Rattle.std.specs.Prelude.{◌&&◌, ◌≡◌, ◌≤◌, take};
ghost use Rattle.bundle.specs.reader.Records.{passes_bundle_record};
ghost use Rattle.path_spec.specs.Reading.{is_bundle_record};
ghost use Rattle.schema_reader.specs.Records.{passes_record};
ghost use Rattle.schema_spec.specs.Records.{schema_in};
ghost use Rattle.text_spec.specs.Limits.{max_schema_bytes, max_bundle_bytes};

use crate::reader::{Bundle, judge_under};
use crate::record_cells::holds_text;
use schema::Schema;

// Whether the text in the bundle's record is accepted under the schema in its record.
fn accepts_text(schema: Schema, bundle: Bundle) -> bool
    requires { (schema.len ≤ max_schema_bytes) × (bundle.len ≤ max_bundle_bytes) }
    ensures { result ≡ is_bundle_record (schema_in (take schema.len schema.bytes)) (take bundle.len bundle.bytes) }
{
    judge_under(&schema.bytes[..schema.len], &bundle.bytes[..bundle.len]).is_ok()
}

// Whether the record is one that `read_bundle` can hand back under this schema's record: its text is accepted, and its cells are that text's.
pub fn is_bundle_record(schema: Schema, bundle: Bundle) -> bool
    ensures { result ≡ (passes_record schema.bytes schema.len && passes_bundle_record (schema_in (take schema.len schema.bytes)) bundle.bytes bundle.len) }
{
    schema_reader::is_schema_record(schema) && holds_text(bundle) && accepts_text(schema, bundle)
}
