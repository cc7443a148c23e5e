// End tags and runs of character data: the end of the innermost open element, its text; refusals 12, 15 and 16 there.
ghost use Rattle.std.specs.Prelude.{List, ◌≡◌, ℕ, ◌≤◌, ◌<◌};
ghost use Rattle.journal_builder.specs.build_state.State.{Built, SafeStep, PlacedIn, outside_by, LeavesUnbroken};
ghost use Rattle.journal_builder.specs.laws.Starts.{is_innermost};
ghost use Rattle.journal_builder.specs.laws.Tags.{Closes, Ends};
ghost use Rattle.journal_lexer.specs.state.Places.{place_in};
ghost use Rattle.journal_spec.specs.Builder.{Building, on_run};
ghost use Rattle.token_spec.specs.Lexer.{run};
ghost use Rattle.schema_spec.specs.Schemas.{Schema};
ghost use Rattle.text.specs.fault_keys.Keys.{place_limit};
ghost use Rattle.text.specs.name_words.Words.{Spells};
ghost use Rattle.text_spec.specs.Limits.{max_depth};

use crate::build_state::{Build, BuildStep};
use crate::fillings::Filling;
use crate::journal_schema::JournalSchema;
use crate::open_levels::{LEVELS, Level};
use crate::rows;
use text::name_words::Name;
use text::refusals::Reason;

// The innermost open element ends.
pub fn close(schema: &JournalSchema, levels: &[Level; LEVELS], m: Build) -> Build
    requires { (0 < m.depth) × (m.depth ≤ max_depth) }
    ensures { (result.depth ≤ m.depth) × (result.count ≡ m.count) × Closes schema.now levels.now m result }
{
    let level = levels[m.depth];
    m.without_element(level.filling.fits_at_end(schema), level.place as u64)
}

// Whether an end tag with this name ends the innermost open element, declared or not.
fn is_own_name(levels: &[Level; LEVELS], d: usize, name: Name) -> bool
    requires { d ≤ max_depth }
    ensures { (s : Schema) (b : Building) (m : Build) (n : List ℕ) → d ≡ m.depth → (d ≡ 0 → ⊥) → Spells name n → Built s levels.now m b → result ≡ is_innermost b.opens n }
{
    name.same(levels[d].name)
}

// An end tag.
pub fn on_end(
    schema: &JournalSchema,
    levels: &[Level; LEVELS],
    m: Build,
    name: Name,
    at: u32,
) -> Build
    requires { m.depth ≤ max_depth }
    ensures { (result.depth ≤ m.depth) × (result.count ≡ m.count) × Ends schema.now levels.now name at m result }
{
    if m.depth == 0 {
        return m.broken(Reason::BadNesting, at);
    }
    if is_own_name(levels, m.depth, name) {
        return close(schema, levels, m);
    }
    m.broken(Reason::BadNesting, at)
}

// A run of character data outside the root, which may be only blanks.
fn outside(m: Build, solid: Option<u32>) -> Build
    ensures { (result ≡ outside_by solid m) × PlacedIn solid }
{
    match solid {
        None => m,
        Some(at) => m.broken(Reason::BadNesting, at),
    }
}

// A run of character data: where it starts, its first byte that is not a blank, how many bytes it has and how many of them its entities save.
pub fn on_run(
    levels: &mut [Level; LEVELS],
    m: Build,
    start: u32,
    solid: Option<u32>,
    size: u32,
    saved: u32,
) -> BuildStep
    requires { (m.depth ≤ max_depth) × (m.count < place_limit) }
    ensures { SafeStep m result × LeavesUnbroken (λ s b. on_run (run start (place_in solid) saved) size b) levels.old m levels.new result }
{
    let d = m.depth;
    if d == 0 {
        return outside(m, solid).without_row();
    }
    let level = levels[d];
    levels[d].filling = level.filling.with_run(solid.is_none());
    match level.filling {
        Filling::ByText(e) => {
            let row = rows::text_row(usize::from(e), level.row, start, size, saved);
            BuildStep {
                build: m.with_text(start, size),
                row: Some(row),
            }
        }
        _ => m.without_row(),
    }
}
