// Events of a journal turned into open elements, content and rows: refusals 12 to 16.
#![tactic(auto)]

pub mod build_state;
pub mod element_names;
pub mod end_tags;
pub mod event_handling;
pub mod fillings;
pub mod journal_schema;
pub mod open_levels;
pub mod rows;
pub mod start_tags;

ghost use Rattle.std.specs.Prelude.{◌≡◌, ◌≤◌, ◌<◌};
ghost use Rattle.journal_builder.specs.Events.{start_event, tag_event, ClosesBegun, StartBy, TagBy};
ghost use Rattle.journal_builder.specs.build_state.State.{judged_from, SafeStep, LeavesBy};
ghost use Rattle.journal_builder.specs.journal_schema.Entries.{Sized};
ghost use Rattle.journal_lexer.specs.state.Places.{place_in};
ghost use Rattle.journal_spec.specs.Builder.{on_event};
ghost use Rattle.token_spec.specs.Lexer.{run, runs};
ghost use Rattle.text.specs.fault_keys.Keys.{place_limit};
ghost use Rattle.text_spec.specs.Limits.{max_declarations, max_depth};

use crate::build_state::{Build, BuildStep};
use crate::journal_schema::JournalSchema;
use crate::open_levels::{LEVELS, Level};
use journal_lexer::state::Event;
use text::name_words::Name;

// The end of an empty tag's element, if nesting is not broken.
fn closed(schema: &JournalSchema, levels: &[Level; LEVELS], begun: BuildStep) -> BuildStep
    requires { (begun.build.depth ≤ max_depth) × (judged_from ≤ begun.build.fault → 0 < begun.build.depth) }
    ensures { (result.build.depth ≤ max_depth) × (result.build.count ≡ begun.build.count) × ClosesBegun schema.now levels.now begun result }
{
    if begun.build.is_judged() {
        return BuildStep {
            build: end_tags::close(schema, levels, begun.build),
            row: begun.row,
        };
    }
    begun
}

// A start tag or an empty tag. The element of its name is found once.
fn start_tag(
    schema: &JournalSchema,
    levels: &mut [Level; LEVELS],
    m: Build,
    empty: bool,
    name: Name,
    at: u32,
) -> BuildStep
    requires { (m.depth ≤ max_depth) × (m.count < place_limit) × Sized schema.now.compiled.now × (schema.now.names.count ≤ max_declarations) }
    ensures { SafeStep m result × StartBy (λ n. start_event empty n at) schema.now levels.old m name levels.new result }
{
    let e = schema.names.find(name);
    let begun = start_tags::on_start(schema, levels, m, e, name, at);
    if empty {
        return closed(schema, levels, begun);
    }
    begun
}

// A tag, by its event. The schema is read, the levels are written, and the rest is by value: a struct of them would be taken apart at each call.
pub fn on_tag(
    schema: &JournalSchema,
    levels: &mut [Level; LEVELS],
    m: Build,
    event: Event,
    name: Name,
    at: u32,
) -> BuildStep
    requires { (m.depth ≤ max_depth) × (m.count < place_limit) × Sized schema.now.compiled.now × (schema.now.names.count ≤ max_declarations) }
    ensures { SafeStep m result × TagBy (λ n. tag_event event n at) schema.now levels.old m name levels.new result }
{
    if !m.is_judged() {
        return m.without_row();
    }
    match event {
        Event::Ends => end_tags::on_end(schema, levels, m, name, at).without_row(),
        _ => start_tag(schema, levels, m, event == Event::Empties, name, at),
    }
}

// A run of character data: where it starts, its first byte that is not a blank, how many bytes it has and how many of them its entities save.
pub fn on_run(
    levels: &mut [Level; LEVELS],
    m: Build,
    start: u32,
    solid: Option<u32>,
    size: u32,
    saved: u32,
) -> BuildStep
    requires { (m.depth ≤ max_depth) × (m.count < place_limit) }
    ensures { SafeStep m result × LeavesBy (λ s b. on_event s (runs (run start (place_in solid) saved) size) b) levels.old m levels.new result }
{
    if m.is_judged() {
        return end_tags::on_run(levels, m, start, solid, size, saved);
    }
    m.without_row()
}
