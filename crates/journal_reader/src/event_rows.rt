// What the lexer's last event makes of what is built and of the rows.
ghost use Rattle.std.specs.Prelude.{◌≤◌, ◌<◌};
ghost use Rattle.cells.specs.columns.Columns.{EqualColumns};
ghost use Rattle.cells.specs.columns.Lent.{lent_columns};
ghost use Rattle.journal_reader.specs.rows.Kept.{Kept};
ghost use Rattle.journal_reader.specs.event_rows.Events.{EventRead};
ghost use Rattle.journal_builder.specs.journal_schema.Entries.{Sized};
ghost use Rattle.text.specs.fault_keys.Keys.{place_limit};
ghost use Rattle.text_spec.specs.Limits.{max_declarations, max_depth};

use crate::rows;
use cells::columns::ColumnsMut;
use journal_builder::build_state::Build;
use journal_builder::event_handling;
use journal_builder::journal_schema::JournalSchema;
use journal_builder::open_levels::{LEVELS, Level};
use journal_lexer::state::{Lex, Places};

// Both drivers deal with an event here, at one call each: what is called once is compiled in place.
pub fn read_event(
    schema: &JournalSchema,
    levels: &mut [Level; LEVELS],
    columns: &mut ColumnsMut,
    places: &Places,
    l: Lex,
    m: Build,
) -> Build
    requires { (m.depth ≤ max_depth) × (m.count < place_limit) × EqualColumns (lent_columns columns.old) × Sized schema.now.compiled.now × (schema.now.names.count ≤ max_declarations) }
    ensures same { Kept columns.old columns.new }
    ensures read { EventRead schema.now levels.old places.now (lent_columns columns.old) l m levels.new (lent_columns columns.new) result }
{
    let x = event_handling::on_event(schema, levels, places, l, m);
    rows::add_row(columns, m.count, x);
    x.build
}
