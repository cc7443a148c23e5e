// Judging the paths of a bundle text: 8 and 9 come with what is noted of them (`bundle_text`), then 10.
ghost use Rattle.std.specs.Prelude.{map, ◌≤◌, length};
ghost use Rattle.bundle.specs.Judging.{Readable, JudgedUnder};
ghost use Rattle.text_spec.specs.Limits.{max_declarations};
ghost use Rattle.text_spec.specs.Scans.{name_at};

use crate::judge_names;
use bundle_text::notes::Notes;
use bundle_text::paths::all_paths;
use compiled_paths::CompiledPaths;
use text::refusals::{Reason, Refusal};

// Judges 8 to 10 on a text that passes 2 and 3.
pub fn judge_paths(schema: &[u8], names: &[usize], text: &[u8]) -> Result<CompiledPaths, Refusal>
    requires { (length names.now ≤ max_declarations) × Readable text.now }
    ensures { JudgedUnder (map (name_at schema.now) names.now) text.now result }
{
    let mut notes = Notes::new();
    match all_paths(text, &mut notes) {
        Err(place) => Err(Refusal::at(Reason::BadPath, place)),
        Ok(Some(place)) => Err(Refusal::at(Reason::OverPathLimit, place)),
        Ok(None) => judge_names(schema, names, text, &notes),
    }
}
