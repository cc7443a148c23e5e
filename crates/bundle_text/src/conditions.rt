// What stands in the brackets of a step: alternatives parted by ` or `.
ghost use Rattle.bundle_text.specs.alternatives.Conditions.{ReadsCondition};
ghost use Rattle.bundle_text.specs.notes.Notes.{ReadsFrom};

use crate::alternative_ends::{Follow, after_alternative};
use crate::alternatives::alternative;
use crate::notes::Notes;
use text::limits::{MAX_ALTERNATIVE_STEPS, MAX_ALTERNATIVES};

// The place past a part, and whether a condition in it passes a limit.
#[derive(Clone, Copy, Debug, PartialEq, Eq)]
pub struct Past {
    pub at: usize,
    pub over_limit: bool,
}

// Past the condition whose first alternative is due at `at`, or where the text departs from it.
// A `loop`: each turn goes on where the alternative before ended.
pub fn condition(s: &[u8], at: usize, notes: &mut Notes) -> Result<Past, usize>
    requires { ReadsFrom s.now at notes.old }
    ensures { ReadsCondition s.now at notes.old notes.new result }
{
    let mut i = at;
    let mut count = 0;
    let mut long = false;
    loop {
        let before = notes.inner_count;
        let end = alternative(s, i, notes)?;
        count += 1;
        long |= MAX_ALTERNATIVE_STEPS < notes.inner_count - before;
        match after_alternative(s, end)? {
            Follow::More(next) => {
                i = next;
            }
            Follow::Close(past) => {
                let over_limit = MAX_ALTERNATIVES < count || long;
                return Ok(Past {
                    at: past,
                    over_limit,
                });
            }
        }
    }
}
