// Judging a bundle text under a schema. Refusal 10: the names in the tests, looked up once while compiled paths are filled.
#![tactic(auto)]

pub mod byte_judging;
pub mod columns;
pub mod names_in_tests;
pub mod path_judging;
pub mod reader;
pub mod record_cells;
pub mod record_tests;

ghost use Rattle.std.specs.Prelude.{map, ◌≤◌, length};
ghost use Rattle.bundle.specs.Judging.{Spelling, JudgedUnder};
ghost use Rattle.text_spec.specs.Limits.{max_declarations};
ghost use Rattle.text_spec.specs.Scans.{name_at};

use bundle_text::notes::Notes;
use compiled_paths::CompiledPaths;
use text::limits;
use text::refusals::{Reason, Refusal};

pub const MAX_BYTES: usize = limits::MAX_BUNDLE_BYTES;

// Judges 10 on a text that passes the others, with what was noted of it.
pub fn judge_names(
    schema: &[u8],
    names: &[usize],
    text: &[u8],
    notes: &Notes,
) -> Result<CompiledPaths, Refusal>
    requires { (length names.now ≤ max_declarations) × Spelling text.now notes.now }
    ensures { JudgedUnder (map (name_at schema.now) names.now) text.now result }
{
    let filled = columns::fill_columns(schema, names, text, notes);
    match filled.lost {
        Some(place) => Err(Refusal::at(Reason::UndeclaredInPath, place)),
        None => Ok(filled.paths),
    }
}
