// The needed names of a bundle's record under a schema's record.
ghost use Rattle.std.specs.Prelude.{◌≡◌};
ghost use Rattle.compiled_schema.specs.records.Records.{record_with};
ghost use Rattle.library_spec.specs.Calls.{needed_names};
ghost use Rattle.text.specs.refusals.Refusals.{outcome_of};

use crate::texts::needed_by_texts;
use bundle::reader::Bundle;
use bundle::record_tests::is_bundle_record;
use schema::Schema;
use text::refusals::{Reason, Refusal};

// The names that the paths of a bundle need, as 64 bits; refusal 1 for a record that its reader cannot hand back, the bundle's under this schema.
pub fn needed_names(schema: Schema, bundle: Bundle) -> Result<u64, Refusal>
    ensures { outcome_of result ≡ needed_names (record_with schema.bytes schema.len) (record_with bundle.bytes bundle.len) }
{
    if !is_bundle_record(schema, bundle) {
        return Err(Refusal::of(Reason::BadRecord));
    }
    Ok(needed_by_texts(&schema.bytes[..schema.len], &bundle.bytes[..bundle.len]))
}
