// Reading bundle texts: the judgement, and the bundle in its record, which is the accepted text itself.
ghost use Rattle.std.specs.Prelude.{◌≡◌};
ghost use Rattle.bundle.specs.Judging.{JudgedAs, sized};
ghost use Rattle.bundle.specs.reader.Records.{empty_bundle, Recorded, read_under, ReadAs};
ghost use Rattle.schema_spec.specs.Records.{schema_in};
ghost use Rattle.text.specs.refusals.Refusals.{outcome_of};

use crate::byte_judging::judge_bundle;
use compiled_paths::CompiledPaths;
use names::MAX_ELEMENTS;
use schema::Schema;
use schema::places::MAX_USES;
use schema_reader::text_judging::judge_into;
use text::refusals::{Reason, Refusal};

// A bundle: an accepted text in the first `len` bytes; the others are 0. A length beside its cells, since hosts keep such a record.
#[derive(Clone, Copy)]
pub struct Bundle {
    pub bytes: [u8; crate::MAX_BYTES],
    pub len: usize,
}

impl Bundle {
    // The bundle that the reader hands back on refusal.
    pub fn empty() -> Self
        ensures { result ≡ empty_bundle }
    {
        Bundle {
            bytes: [0; crate::MAX_BYTES],
            len: 0,
        }
    }
}

// A text that is not too long, in a bundle's cells.
pub fn recorded(text: &[u8]) -> Bundle
    ensures { Recorded text.now result }
{
    if crate::MAX_BYTES < text.len() {
        return Bundle::empty();
    }
    let mut bytes = [0u8; crate::MAX_BYTES];
    bytes[..text.len()].copy_from_slice(text);
    Bundle {
        bytes,
        len: text.len(),
    }
}

// Judges a bundle text under the schema in a text, one with no element where that text is refused.
pub fn judge_under(schema: &[u8], text: &[u8]) -> Result<CompiledPaths, Refusal>
    ensures { JudgedAs (schema_in schema.now) text.now result }
{
    let mut names = [0usize; MAX_ELEMENTS];
    let mut uses = [0usize; MAX_USES];
    let count = judge_into(schema, &mut names, &mut uses).unwrap_or(0);
    judge_bundle(schema, &names[..count], text)
}

// The number of paths or the refusal, and the record, which is handed back either way: the empty one on refusal.
#[derive(Drop)]
pub struct BundleRead {
    pub judgement: Result<usize, Refusal>,
    pub bundle: Bundle,
}

// Judges a bundle text under a schema's record: the number of paths, or the refusal that comes first.
fn judge_with(schema: &Schema, text: &[u8]) -> Result<usize, Refusal>
    ensures { outcome_of result ≡ sized (read_under schema.now.bytes schema.now.len text.now) }
{
    if !schema_reader::is_schema_record(*schema) {
        return Err(Refusal::of(Reason::BadRecord));
    }
    let paths = judge_under(&schema.bytes[..schema.len], text)?;
    Ok(paths.count)
}

// Reads a bundle text under a schema's record: the refusal that comes first, or the bundle.
pub fn read_bundle(schema: Schema, text: &[u8]) -> BundleRead
    ensures { ReadAs schema.bytes schema.len text.now result }
{
    let judgement = judge_with(&schema, text);
    let bundle = match judgement {
        Ok(_) => recorded(text),
        Err(_) => Bundle::empty(),
    };
    BundleRead { judgement, bundle }
}
