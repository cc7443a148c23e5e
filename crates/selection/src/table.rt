// The numbers that the paths asked for select on a table in columns, with scratch of its own, in lent cells.
ghost use Rattle.std.specs.Prelude.{◌≤◌};
ghost use Rattle.axis_passes.specs.rows.Rows.{HeldTexts};
ghost use Rattle.axis_passes.specs.scratch.Scratch.{Kept};
ghost use Rattle.compiled_paths.specs.Paths.{Shaped, paths_in};
ghost use Rattle.selection.specs.table.Tables.{AskedPass, SelectsOn, TestedRows};

use crate::answers::{Selected, in_room};
use crate::asked::asked;
use crate::joined_paths::select_paths;
use axis_passes::rows::Rows;
use axis_passes::scratch::Scratch;
use compiled_paths::CompiledPaths;
use text::limits::MAX_NODES;
use text::refusals::Refusal;

// Selects with lent scratch, a byte for each row in each of its columns and in `marks`.
fn select_into(
    paths: &CompiledPaths,
    place: usize,
    rows: &Rows,
    items: &mut [u16],
    counts: &mut [u32],
    marks: &mut [u8],
    scratch: &mut Scratch,
) -> Result<Selected, Refusal>
    requires { AskedPass rows.now paths.now place marks.old scratch.old }
    ensures selected { SelectsOn rows.now (paths_in paths.now) place result items counts }
    ensures kept { Kept scratch.old scratch.new }
{
    let paths_asked = asked(place, paths.count);
    let m = paths_asked.end - paths_asked.start;
    let n = select_paths(rows, paths, paths_asked, items, counts, marks, scratch);
    in_room(n, m, items, counts)
}

// The same with scratch of its own: four bytes for each row that there can be, 262,140 in all.
pub fn select_table(
    paths: &CompiledPaths,
    place: usize,
    rows: &Rows,
    items: &mut [u16],
    counts: &mut [u32],
) -> Result<Selected, Refusal>
    requires { Shaped paths.now × (place ≤ paths.now.count) × TestedRows rows.now × HeldTexts rows.now }
    ensures { SelectsOn rows.now (paths_in paths.now) place result items counts }
{
    let mut marks = [0u8; MAX_NODES];
    let mut held = [0u8; MAX_NODES];
    let mut steps = [0u8; MAX_NODES];
    let mut next = [0u8; MAX_NODES];
    let n = rows.columns.parents.len();
    let mut scratch = Scratch {
        held: &mut held[..n],
        steps: &mut steps[..n],
        next: &mut next[..n],
    };
    select_into(
        paths,
        place,
        rows,
        items,
        counts,
        &mut marks[..n],
        &mut scratch,
    )
}
