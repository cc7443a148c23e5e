// What the lexer's last event makes of what is built.
ghost use Rattle.std.specs.Prelude.{◌⊎◌, ◌≡◌, ◌≤◌, ◌<◌};
ghost use Rattle.journal_builder.specs.event_handling.Events.{EventLeaves};
ghost use Rattle.journal_builder.specs.journal_schema.Entries.{Sized};
ghost use Rattle.text.specs.fault_keys.Keys.{place_limit};
ghost use Rattle.text_spec.specs.Limits.{max_declarations, max_depth};

use crate::build_state::{Build, BuildStep};
use crate::journal_schema::JournalSchema;
use crate::open_levels::{LEVELS, Level};
use journal_lexer::state::{Event, Lex, Places};

// No event, or a run of character data. Nothing else is left at the end of a text.
pub fn on_data_event(levels: &mut [Level; LEVELS], places: &Places, l: Lex, m: Build) -> BuildStep
    requires { (m.depth ≤ max_depth) × (m.count < place_limit) × ((l.event ≡ Event.Quiet) ⊎ (l.event ≡ Event.Runs)) }
    ensures { (t : JournalSchema) → EventLeaves t levels.old places.now l m levels.new result }
{
    match l.event {
        Event::Runs => {
            let size = places.at.saturating_sub(places.start);
            crate::on_run(levels, m, places.start, places.solid_at, size, places.saved)
        }
        _ => m.without_row(),
    }
}

pub fn on_event(
    schema: &JournalSchema,
    levels: &mut [Level; LEVELS],
    places: &Places,
    l: Lex,
    m: Build,
) -> BuildStep
    requires { (m.depth ≤ max_depth) × (m.count < place_limit) × Sized schema.now.compiled.now × (schema.now.names.count ≤ max_declarations) }
    ensures { EventLeaves schema.now levels.old places.now l m levels.new result }
{
    match l.event {
        Event::Quiet | Event::Runs => on_data_event(levels, places, l, m),
        event => crate::on_tag(schema, levels, m, event, l.name, places.at),
    }
}
