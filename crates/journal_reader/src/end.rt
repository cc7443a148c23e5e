// The end of reading a journal: its last event, and what was found.
ghost use Rattle.std.specs.Prelude.{◌<◌};
ghost use Rattle.cells.specs.columns.Lent.{lent_columns};
ghost use Rattle.journal_reader.specs.rows.Kept.{Kept};
ghost use Rattle.journal_builder.specs.declared.journal_schema.JournalSchema.{JournalSchema};
ghost use Rattle.journal_lexer.specs.state.Places.{no_place};
ghost use Rattle.journal_reader.specs.end.Ends.{Finished};
ghost use Rattle.journal_reader.specs.state.Reading.{Usable};

use crate::state::ReaderState;
use crate::{findings, rows, verdict};
use cells::columns::ColumnsMut;
use journal_builder::event_handling;
use journal_builder::open_levels::{LEVELS, Level};
use journal_lexer::state::Places;
use text::refusals::Refusal;

// The event that the end of the text makes, and its row. How many rows there are, or the first refusal.
pub fn finish(
    levels: &mut [Level; LEVELS],
    columns: &mut ColumnsMut,
    places: &mut Places,
    x: ReaderState,
) -> Result<usize, Refusal>
    requires { Usable places.old (lent_columns columns.old) x × (x.lex.place < no_place) }
    ensures same { Kept columns.old columns.new }
    ensures finished { (t : JournalSchema) → Finished t levels.old places.old (lent_columns columns.old) x (lent_columns columns.new) result }
{
    let last = findings::ending(places, x.lex);
    let y = event_handling::on_data_event(levels, places, last, x.build);
    rows::add_row(columns, x.build.count, y);
    let key = findings::found_key(places, x.lex.mode, y.build, x.lex.place);
    verdict::answer_of(key, y.build.count)
}
