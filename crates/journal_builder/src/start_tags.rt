// Start tags: one child more of the innermost open element, a new open element and its row; refusals 12 to 16 at a start tag.
ghost use Rattle.std.specs.Prelude.{List, ◌≡◌, ◌≤◌, ◌<◌, length};
ghost use Rattle.journal_builder.specs.build_state.State.{SafeStep};
ghost use Rattle.journal_builder.specs.journal_schema.Entries.{Sized};
ghost use Rattle.journal_builder.specs.laws.Tags.{Opens, Starts, FitsChild};
ghost use Rattle.journal_builder.specs.open_levels.Levels.{Opened};
ghost use Rattle.journal_builder.specs.start_tags.Starts.{SafeStart};
ghost use Rattle.journal_spec.specs.Builder.{Open, parent_row, begin, on_start};
ghost use Rattle.schema_spec.specs.Schemas.{Schema};
ghost use Rattle.text.specs.fault_keys.Keys.{place_limit};
ghost use Rattle.text_spec.specs.Limits.{max_depth};

use crate::build_state::{Build, BuildStep};
use crate::fillings::Filling;
use crate::journal_schema::JournalSchema;
use crate::open_levels::{LEVELS, Level};
use crate::rows;
use text::limits::MAX_DEPTH;
use text::name_words::Name;
use text::refusals::Reason;

// The row of the innermost open element, or 0.
fn parent_row(levels: &[Level; LEVELS], d: usize) -> usize
    requires { d ≤ max_depth }
    ensures { (s : Schema) (os : List Open) → d ≡ length os → Opened s levels.now os → result ≡ parent_row os }
{
    if d == 0 { 0 } else { levels[d].row }
}

// One child more of the innermost open element.
fn fit_child(schema: &JournalSchema, levels: &mut [Level; LEVELS], d: usize, e: Option<u8>)
    requires { (d ≤ max_depth) × Sized schema.now.compiled.now }
    ensures { FitsChild schema.now levels.old d e levels.new }
{
    let old = levels[d].filling;
    levels[d].filling = old.with_child(schema, e);
}

// The element e, or an undeclared one, is open at the level past d.
fn open_element(
    schema: &JournalSchema,
    levels: &mut [Level; LEVELS],
    d: usize,
    e: Option<u8>,
    row: usize,
    at: u32,
    name: Name,
)
    requires { d < max_depth }
    ensures { Opens schema.now levels.old d e row at name levels.new }
{
    levels[d + 1] = Level {
        name,
        place: at,
        row,
        filling: Filling::of(schema, e),
    };
}

// The element e, or an undeclared one, begins.
fn begin(
    schema: &JournalSchema,
    levels: &mut [Level; LEVELS],
    m: Build,
    e: Option<u8>,
    name: Name,
    at: u32,
) -> BuildStep
    requires { (m.depth < max_depth) × (m.count < place_limit) × Sized schema.now.compiled.now }
    ensures { SafeStep m result × (0 < result.build.depth) × Starts begin schema.now levels.old m e name at levels.new result }
{
    let d = m.depth;
    let row = rows::element_row(e, parent_row(levels, d));
    fit_child(schema, levels, d, e);
    open_element(schema, levels, d, e, m.count, at, name);
    BuildStep {
        build: m.with_element(e, at),
        row: Some(row),
    }
}

// A start tag. 12 comes before 13, so a second root is judged first.
pub fn on_start(
    schema: &JournalSchema,
    levels: &mut [Level; LEVELS],
    m: Build,
    e: Option<u8>,
    name: Name,
    at: u32,
) -> BuildStep
    requires { (m.depth ≤ max_depth) × (m.count < place_limit) × Sized schema.now.compiled.now }
    ensures { SafeStart m result × Starts on_start schema.now levels.old m e name at levels.new result }
{
    if m.is_second_root() {
        return m.broken(Reason::BadNesting, at).without_row();
    }
    if MAX_DEPTH <= m.depth {
        return m.broken(Reason::OverDepth, at).without_row();
    }
    begin(schema, levels, m, e, name, at)
}
