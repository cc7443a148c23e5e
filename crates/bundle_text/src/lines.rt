// Paths: steps with their brackets, ended by a line feed.
ghost use Rattle.std.specs.Prelude.{◌≤◌, ◌<◌, length};
ghost use Rattle.bundle_text.specs.notes.Notes.{ReadsFrom};
ghost use Rattle.bundle_text.specs.written_steps.Readings.{ReadsLine};

use crate::alternative_ends::Follow;
use crate::conditions::Past;
use crate::notes::Notes;
use crate::written_steps::{after_step, uncounted_step};

// Past the path that is due at `at` and its line feed. Its steps are noted.
// A `loop`: each turn goes on where the step before ended.
pub fn path(s: &[u8], at: usize, notes: &mut Notes) -> Result<Past, usize>
    requires { (at < length s.now) × ReadsFrom s.now at notes.old × (notes.old.outer_count ≤ at) }
    ensures { ReadsLine s.now at notes.old notes.new result }
{
    let mut i = at;
    let mut over_limit = false;
    loop {
        let step = uncounted_step(s, i, notes)?;
        notes.count_outer();
        over_limit |= step.over_limit;
        match after_step(s, step.at)? {
            Follow::More(next) => {
                i = next;
            }
            Follow::Close(past) => {
                return Ok(Past {
                    at: past,
                    over_limit,
                });
            }
        }
    }
}
