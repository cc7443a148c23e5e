// Alternatives of a condition, paths of steps without brackets.
ghost use Rattle.bundle_text.specs.alternatives.Readings.{ReadsAlternative};
ghost use Rattle.bundle_text.specs.notes.Notes.{ReadsFrom};

use crate::notes::Notes;
use crate::steps::{plain_step, stands};

// Past the steps joined by `/` from `at` on, which are noted: the place past them, or where the text departs from the alternative.
// A `loop`: each turn goes on where the step before ended.
pub fn alternative(s: &[u8], at: usize, notes: &mut Notes) -> Result<usize, usize>
    requires { ReadsFrom s.now at notes.old }
    ensures { ReadsAlternative s.now at notes.old notes.new result }
{
    let mut i = at;
    loop {
        let (step, j) = plain_step(s, i)?;
        if !stands(s, j, b'/') {
            notes.note_inner(step.last());
            return Ok(j);
        }
        notes.note_inner(step);
        i = j + 1;
    }
}
