// A journal read and judged into clear columns, event by event, with the stack of open elements and the places as local cells: 2, and then what
// reading finds, 18 last.
ghost use Rattle.std.specs.Prelude.{◌≤◌, ◌<◌, length};
ghost use Rattle.cells.specs.columns.Columns.{EqualColumns};
ghost use Rattle.cells.specs.columns.Lent.{lent_columns};
ghost use Rattle.journal_reader.specs.rows.Kept.{Kept};
ghost use Rattle.journal_builder.specs.journal_schema.Entries.{Sized};
ghost use Rattle.journal_lexer.specs.kinds.Kinds.{KindTable};
ghost use Rattle.journal_lexer.specs.state.Places.{no_place};
ghost use Rattle.journal_reader.specs.byte_loop.Whole.{AllRead};
ghost use Rattle.journal_reader.specs.event_loop.Journals.{JournalRead};
ghost use Rattle.journal_reader.specs.event_loop.Judging.{Judged};
ghost use Rattle.journal_reader.specs.state.Reading.{Usable, started};
ghost use Rattle.text_spec.specs.Limits.{max_declarations};

use crate::state::ReaderState;
use crate::{end, event_step, verdict};
use cells::columns::ColumnsMut;
use journal_builder::journal_schema::JournalSchema;
use journal_builder::open_levels::{LEVELS, Level};
use journal_lexer::kinds;
use journal_lexer::kinds::ByteKind;
use journal_lexer::state::Places;
use text::refusals::{Reason, Refusal};

// Each event of the text in turn. The contract is that of `journal_reader::byte_loop::read_all`, which reads byte by byte over request R-4's step:
// both leave what the definition's machine leaves.
// A `while`: each turn goes on at the place that the lexer came to, past all bytes up to an event.
fn read_all(
    text: &[u8],
    table: &[ByteKind; 256],
    schema: &JournalSchema,
    levels: &mut [Level; LEVELS],
    columns: &mut ColumnsMut,
    places: &mut Places,
) -> ReaderState
    requires { Usable places.old (lent_columns columns.old) started × KindTable table.now × (length text.now < no_place) × Sized schema.now.compiled.now × (schema.now.names.count ≤ max_declarations) }
    ensures same { Kept columns.old columns.new }
    ensures read { AllRead schema.now text.now levels.old places.old (lent_columns columns.old) levels.new places.new (lent_columns columns.new) result }
{
    let mut x = ReaderState::start();
    while x.lex.place < text.len() {
        x = event_step::read_on(text, table, schema, levels, columns, places, x);
    }
    x
}

// The whole journal: all events, then its end. How many rows there are.
fn read_journal(
    text: &[u8],
    schema: &JournalSchema,
    columns: &mut ColumnsMut,
) -> Result<usize, Refusal>
    requires { (length text.now < no_place) × EqualColumns (lent_columns columns.old) × Sized schema.now.compiled.now × (schema.now.names.count ≤ max_declarations) }
    ensures same { Kept columns.old columns.new }
    ensures read { JournalRead schema.now text.now (lent_columns columns.old) (lent_columns columns.new) result }
{
    let table = kinds::all_kinds();
    let mut levels = [Level::none(); LEVELS];
    let mut places = Places::none();
    let x = read_all(text, &table, schema, &mut levels, columns, &mut places);
    end::finish(&mut levels, columns, &mut places, x)
}

// How many rows there are, or the refusal, with the rows in the columns, which are clear at first.
pub fn judge(
    text: &[u8],
    limit: usize,
    schema: &JournalSchema,
    columns: &mut ColumnsMut,
) -> Result<usize, Refusal>
    requires { (limit < no_place) × EqualColumns (lent_columns columns.old) × Sized schema.now.compiled.now × (schema.now.names.count ≤ max_declarations) }
    ensures same { Kept columns.old columns.new }
    ensures judged { Judged schema.now text.now limit (lent_columns columns.old) (lent_columns columns.new) result }
{
    if text.is_empty() || limit < text.len() {
        return Err(Refusal::of(Reason::BadLength));
    }
    let room = columns.room();
    let read = read_journal(text, schema, columns);
    verdict::in_room(read, room)
}
