// Judging schema texts. Refusals 2 and 3 are a test and a scan; 4 to 7 are judged on what passes them (`declaration_judging`).
ghost use Rattle.std.specs.Prelude.{◌≡◌, ◌+◌, ◌*◌, length, replicate};
ghost use Rattle.schema.specs.Judging.{JudgedAs, JudgedInto};
ghost use Rattle.text_spec.specs.Limits.{max_declarations, max_model_names};

use crate::declaration_judging;
use schema::Schema;
use schema::places::MAX_USES;
use text::refusals::{Reason, Refusal};

// Judges a schema text. On acceptance the places of its declared names are left in `names`, and in `uses` the elements that its models use.
pub fn judge_into(text: &[u8], names: &mut [usize], uses: &mut [usize]) -> Result<usize, Refusal>
    requires { (names.old ≡ replicate max_declarations 0) × (length uses.old ≡ max_declarations * max_model_names + 1) }
    ensures { JudgedInto text.now names.new uses.new result }
{
    if text.is_empty() || Schema::MAX_BYTES < text.len() {
        return Err(Refusal::of(Reason::BadLength));
    }
    if let Some(place) = text::first_foreign(text) {
        return Err(Refusal::at(Reason::BadByte, place));
    }
    declaration_judging::judge(text, names, uses)
}

// Judges a schema text: the number of elements, or the refusal that comes first.
pub fn judge_schema(text: &[u8]) -> Result<usize, Refusal>
    ensures { JudgedAs text.now result }
{
    let mut names = [0usize; Schema::MAX_DECLARATIONS];
    let mut uses = [0usize; MAX_USES];
    judge_into(text, &mut names, &mut uses)
}
