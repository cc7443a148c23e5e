// Judging the declarations of a schema text: refusals 4 and 5 come with the places of the names (`schema_places`), then 6 and 7 (`name_judging`).
ghost use Rattle.std.specs.Prelude.{◌≡◌, ◌+◌, ◌*◌, length, replicate};
ghost use Rattle.schema.specs.Judging.{JudgedInto};
ghost use Rattle.schema_reader.specs.judging_laws.Spellings.{Readable};
ghost use Rattle.text_spec.specs.Limits.{max_declarations, max_model_names};

use crate::name_judging;
use schema::places;
use text::refusals::{Reason, Refusal};

// Judges 4 to 7 on a text that passes 2 and 3.
pub fn judge(s: &[u8], names: &mut [usize], uses: &mut [usize]) -> Result<usize, Refusal>
    requires { Readable s.now × (names.old ≡ replicate max_declarations 0) × (length uses.old ≡ max_declarations * max_model_names + 1) }
    ensures { JudgedInto s.now names.new uses.new result }
{
    match places::all_declarations(s, names, uses) {
        Err(place) => Err(Refusal::at(Reason::BadSchema, place)),
        Ok(counts) => match counts.over {
            Some(place) => Err(Refusal::at(Reason::OverSchemaLimit, place)),
            None => name_judging::judge_names(s, &names[..counts.d], &mut uses[..counts.n]),
        },
    }
}
