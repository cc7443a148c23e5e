// The schema that a text is read into: its normal form in cells, and the empty schema on refusal.
ghost use Rattle.std.specs.Prelude.{◌≡◌};
ghost use Rattle.schema_reader.specs.record_cells.Recorded.{Recorded, HandedBack, handed_back};

use crate::normal_form;
use schema::Schema;
use text::refusals::Refusal;

// The normal form of a text that is not too long, in a schema's cells.
pub fn recorded(s: &[u8]) -> Schema
    ensures { Recorded s.now result }
{
    if Schema::MAX_BYTES < s.len() {
        return Schema::empty();
    }
    let mut bytes = [0u8; Schema::MAX_BYTES];
    let len = normal_form::write_normal(s, &mut bytes);
    Schema { bytes, len }
}

// On refusal the empty schema is handed back.
pub fn handed_back(judgement: Result<usize, Refusal>, read: Schema) -> Schema
    ensures { result ≡ handed_back judgement read }
{
    match judgement {
        Ok(_) => read,
        Err(_) => Schema::empty(),
    }
}

// The record of a text with this judgement: an accepted text alone is written in its normal form.
pub fn record_of(text: &[u8], judgement: Result<usize, Refusal>) -> Schema
    ensures { HandedBack text.now judgement result }
{
    match judgement {
        Ok(_) => handed_back(judgement, recorded(text)),
        Err(_) => handed_back(judgement, Schema::empty()),
    }
}
