// A journal read up to an event, in loops for the modes that last.
ghost use Rattle.std.specs.Prelude.{◌≤◌, ◌<◌, length};
ghost use Rattle.cells.specs.columns.Lent.{lent_columns};
ghost use Rattle.journal_reader.specs.rows.Kept.{Kept};
ghost use Rattle.journal_builder.specs.journal_schema.Entries.{Sized};
ghost use Rattle.journal_lexer.specs.loop_laws.Advance.{Ready};
ghost use Rattle.journal_reader.specs.event_step.Onward.{Onward};
ghost use Rattle.journal_reader.specs.event_step.Points.{ReadOn};
ghost use Rattle.journal_reader.specs.state.Reading.{ByteAhead};
ghost use Rattle.text_spec.specs.Limits.{max_declarations};

use crate::event_rows;
use crate::state::ReaderState;
use cells::columns::ColumnsMut;
use journal_builder::journal_schema::JournalSchema;
use journal_builder::open_levels::{LEVELS, Level};
use journal_lexer::kinds::ByteKind;
use journal_lexer::state::{Event, Lex, Places};
use journal_lexer::{data_loops, tag_loops};

// The lexer up to an event, or to the end. There is a byte to read.
fn to_event(text: &[u8], table: &[ByteKind; 256], places: &mut Places, l: Lex) -> Lex
    requires { Ready text.now table.now l places.old × (l.place < length text.now) }
    ensures { Onward text.now l places.old result places.new }
{
    let from = l.with_event(Event::Quiet);
    let data = data_loops::data_part(text, table, places, from);
    match data.event {
        Event::Quiet => tag_loops::tag_part(text, table, places, data),
        _ => data,
    }
}

// The reader up to an event, and what the event makes of what is built and of the rows.
pub fn read_on(
    text: &[u8],
    table: &[ByteKind; 256],
    schema: &JournalSchema,
    levels: &mut [Level; LEVELS],
    columns: &mut ColumnsMut,
    places: &mut Places,
    x: ReaderState,
) -> ReaderState
    requires ahead { ByteAhead text.now table.now places.old (lent_columns columns.old) x }
    requires sized { Sized schema.now.compiled.now }
    requires few { schema.now.names.count ≤ max_declarations }
    ensures same { Kept columns.old columns.new }
    ensures read { ReadOn schema.now text.now levels.old places.old (lent_columns columns.old) x levels.new places.new (lent_columns columns.new) result }
{
    let lex = to_event(text, table, places, x.lex);
    let build = event_rows::read_event(schema, levels, columns, places, lex, x.build);
    ReaderState { lex, build }
}
