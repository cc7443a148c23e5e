// Judging the names of a schema text: refusals 6 and 7 are loops over their places (`declared_names`).
ghost use Rattle.schema_reader.specs.judging_laws.Spellings.{Spelling, JudgedNames};

use crate::declared_names;
use text::refusals::{Reason, Refusal};

// Judges 6 and 7 on a text whose names are declared at `names` and used at `uses`, which on acceptance become the elements with those names.
pub fn judge_names(s: &[u8], names: &[usize], uses: &mut [usize]) -> Result<usize, Refusal>
    requires { Spelling s.now names.now uses.old }
    ensures { JudgedNames s.now names.now uses.old uses.new result }
{
    if let Some(place) = declared_names::twice(s, names) {
        return Err(Refusal::at(Reason::DeclaredTwice, place));
    }
    match declared_names::resolve(s, names, uses) {
        Ok(()) => Ok(names.len()),
        Err(place) => Err(Refusal::at(Reason::UndeclaredInModel, place)),
    }
}
