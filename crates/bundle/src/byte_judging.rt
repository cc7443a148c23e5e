// Judging bundle texts under a schema: 2 and 3 are a test and a scan, then the paths.
ghost use Rattle.std.specs.Prelude.{map, ◌≤◌, length};
ghost use Rattle.bundle.specs.Judging.{JudgedUnder};
ghost use Rattle.text_spec.specs.Limits.{max_declarations};
ghost use Rattle.text_spec.specs.Scans.{name_at};

use crate::MAX_BYTES;
use crate::path_judging::judge_paths;
use compiled_paths::CompiledPaths;
use text::refusals::{Reason, Refusal};

// Judges a bundle text under a schema whose elements have their names at the places `names` of its text.
// The three slices go side by side through this crate: this function may not change, and a struct made in it is taken apart in `compile_test` alone.
pub fn judge_bundle(schema: &[u8], names: &[usize], text: &[u8]) -> Result<CompiledPaths, Refusal>
    requires { length names.now ≤ max_declarations }
    ensures { JudgedUnder (map (name_at schema.now) names.now) text.now result }
{
    if text.is_empty() || MAX_BYTES < text.len() {
        return Err(Refusal::of(Reason::BadLength));
    }
    match text::first_foreign(text) {
        Some(place) => Err(Refusal::at(Reason::BadByte, place)),
        None => judge_paths(schema, names, text),
    }
}
