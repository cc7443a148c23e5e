// A journal read byte by byte, in one loop over the step (request R-4). `journal_reader::event_loop::read_all` has the same contract.
ghost use Rattle.std.specs.Prelude.{◌≤◌, ◌<◌, length};
ghost use Rattle.cells.specs.columns.Lent.{lent_columns};
ghost use Rattle.journal_reader.specs.rows.Kept.{Kept};
ghost use Rattle.journal_builder.specs.journal_schema.Entries.{Sized};
ghost use Rattle.journal_lexer.specs.kinds.Kinds.{KindTable};
ghost use Rattle.journal_lexer.specs.state.Places.{no_place};
ghost use Rattle.journal_reader.specs.byte_loop.Whole.{AllRead};
ghost use Rattle.journal_reader.specs.state.Reading.{Usable, started};
ghost use Rattle.text_spec.specs.Limits.{max_declarations};

use crate::state::ReaderState;
use crate::step;
use cells::columns::ColumnsMut;
use journal_builder::journal_schema::JournalSchema;
use journal_builder::open_levels::{LEVELS, Level};
use journal_lexer::kinds::ByteKind;
use journal_lexer::state::Places;

// Each byte of the text in turn. The levels, the columns and the places stand apart, as in `read_byte`.
pub fn read_all(
    text: &[u8],
    table: &[ByteKind; 256],
    schema: &JournalSchema,
    levels: &mut [Level; LEVELS],
    columns: &mut ColumnsMut,
    places: &mut Places,
) -> ReaderState
    requires { Usable places.old (lent_columns columns.old) started × KindTable table.now × (length text.now < no_place) × Sized schema.now.compiled.now × (schema.now.names.count ≤ max_declarations) }
    ensures same { Kept columns.old columns.new }
    ensures read { AllRead schema.now text.now levels.old places.old (lent_columns columns.old) levels.new places.new (lent_columns columns.new) result }
{
    let mut x = ReaderState::start();
    for at in 0..text.len() {
        let b = text[at];
        x = step::read_byte(schema, levels, columns, places, x, b, table[b as usize]);
    }
    x
}
