// Compiled paths from what was noted of a bundle text.
ghost use Rattle.std.specs.Prelude.{map, ◌≡◌};
ghost use Rattle.bundle.specs.columns.Filling.{filled, filled_columns, filled_with, Room};
ghost use Rattle.text_spec.specs.Scans.{name_at};

use crate::names_in_tests::{compile_steps, earlier};
use bundle_text::notes::Notes;
use compiled_paths::{Axis, CompiledPaths, NO_STEP, NodeTest, STEPS, Step, WRITTEN_STEPS};

// Compiled paths, and the least place of a name that no element has, if there is one.
#[derive(Drop)]
pub struct Filled {
    pub paths: CompiledPaths,
    pub lost: Option<usize>,
}

// What `fill` leaves in a cell that no step is written to.
const ANY_STEP: Step = Step {
    axis: Axis::SelfNode,
    test: NodeTest::Node,
    ends_alternative: false,
};

// Fills the steps outside brackets and in them, and where those of paths and of conditions start. The other cells of steps hold `unwritten`.
fn fill_with(schema: &[u8], names: &[usize], text: &[u8], notes: &Notes, unwritten: Step) -> Filled
    requires { Room names.now notes.now }
    ensures { result ≡ filled_with (map (name_at schema.now) names.now) text.now notes.now unwritten }
{
    let mut steps = [unwritten; STEPS];
    let outer = &notes.outer[..notes.outer_count];
    let inner = &notes.inner[..notes.inner_count];
    let outer_lost = compile_steps(schema, names, text, outer, 0, &mut steps, None);
    let inner_lost = compile_steps(schema, names, text, inner, WRITTEN_STEPS, &mut steps, None);
    let paths = notes.paths;
    let conditions = notes.conditions;
    Filled {
        paths: CompiledPaths {
            count: notes.path_count,
            paths,
            conditions,
            steps,
        },
        lost: earlier(outer_lost, inner_lost),
    }
}

// The same with `NO_STEP` in those cells.
pub fn fill_columns(schema: &[u8], names: &[usize], text: &[u8], notes: &Notes) -> Filled
    requires { Room names.now notes.now }
    ensures { result ≡ filled_columns (map (name_at schema.now) names.now) text.now notes.now }
{
    fill_with(schema, names, text, notes, NO_STEP)
}

// The same with `ANY_STEP` in those cells, as one answer: the compiled paths, or the least place of a name that no element has.
pub fn fill(
    schema: &[u8],
    names: &[usize],
    text: &[u8],
    notes: &Notes,
) -> Result<CompiledPaths, usize>
    requires { Room names.now notes.now }
    ensures { result ≡ filled (map (name_at schema.now) names.now) text.now notes.now }
{
    let filled = fill_with(schema, names, text, notes, ANY_STEP);
    match filled.lost {
        Some(place) => Err(place),
        None => Ok(filled.paths),
    }
}
