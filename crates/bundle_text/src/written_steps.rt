// Steps of a path with their brackets, and what follows each.
ghost use Rattle.std.specs.Prelude.{◌+◌, ◌^◌, ◌<◌};
ghost use Rattle.bundle_text.specs.notes.Notes.{ReadsFrom};
ghost use Rattle.bundle_text.specs.written_steps.Readings.{ReadsBrackets, ReadsUncounted, ReadsWritten, Followed};

use crate::alternative_ends::Follow;
use crate::conditions::{Past, condition};
use crate::notes::Notes;
use crate::steps::{plain_step, stands};

// Past the brackets at `at`, if there are any.
fn brackets(s: &[u8], at: usize, notes: &mut Notes) -> Result<Past, usize>
    requires { ReadsFrom s.now at notes.old }
    ensures { ReadsBrackets s.now at notes.old notes.new result }
{
    if stands(s, at, b'[') {
        return condition(s, at + 1, notes);
    }
    Ok(Past {
        at,
        over_limit: false,
    })
}

// Past the step that is due at `at`, which is noted, and not yet counted.
pub fn uncounted_step(s: &[u8], at: usize, notes: &mut Notes) -> Result<Past, usize>
    requires { ReadsFrom s.now at notes.old }
    ensures { ReadsUncounted s.now at notes.old notes.new result }
{
    let (step, j) = plain_step(s, at)?;
    let past = brackets(s, j, notes)?;
    notes.note_cell(step);
    Ok(past)
}

// The same, and counted.
pub fn written_step(s: &[u8], at: usize, notes: &mut Notes) -> Result<Past, usize>
    requires { ReadsFrom s.now at notes.old × (notes.old.outer_count + 1 < 2 ^ 64) }
    ensures { ReadsWritten s.now at notes.old notes.new result }
{
    let past = uncounted_step(s, at, notes)?;
    notes.count_outer();
    Ok(past)
}

// What follows a step that ends at `at`: `/`, or the line feed that ends the path.
pub fn after_step(s: &[u8], at: usize) -> Result<Follow, usize>
    ensures { Followed s.now at result }
{
    if s.len() <= at {
        return Err(at);
    }
    match s[at] {
        b'/' => Ok(Follow::More(at + 1)),
        b'\n' => Ok(Follow::Close(at + 1)),
        _ => Err(at),
    }
}
