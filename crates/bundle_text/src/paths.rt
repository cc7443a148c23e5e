// All paths of a bundle text: where it departs from the grammar (8), or what it has and the first path that passes a limit (9).
ghost use Rattle.std.specs.Prelude.{◌≤◌, ◌<◌, length};
ghost use Rattle.bundle_text.specs.notes.Notes.{uncounted};
ghost use Rattle.bundle_text.specs.paths.Readings.{ReadsBundle};
ghost use Rattle.text_spec.specs.Limits.{max_bundle_bytes};

use crate::lines;
use crate::notes::Notes;
use crate::path_limits::passes_limit;

// Reads all paths into notes, whatever was counted there before. Gives the first byte of the first path that passes a limit, if there is one, or else where the
// text departs from the grammar.
// A `while`: each turn goes on where the path before ended.
pub fn all_paths(s: &[u8], notes: &mut Notes) -> Result<Option<usize>, usize>
    requires { (0 < length s.now) × (length s.now ≤ max_bundle_bytes) }
    ensures { ReadsBundle s.now (uncounted notes.old) notes.new result }
{
    notes.forget_counts();
    let mut i = 0;
    let mut over = None;
    while i < s.len() {
        let before = notes.outer_count;
        let line = lines::path(s, i, notes)?;
        let steps = notes.outer_count - before;
        let passes = passes_limit(notes.path_count, steps, line.at - 1 - i, line.over_limit);
        over = over.or(passes.then_some(i));
        notes.note_path();
        i = line.at;
    }
    Ok(over)
}
