// For each row of a table the place in the bundle, counted from 1, of the first path that selects it; 0 where none does.
ghost use Rattle.std.specs.Prelude.{◌≡◌, length};
ghost use Rattle.axis_passes.specs.rows.Rows.{parents_in, codes_in};
ghost use Rattle.axis_passes.specs.scratch.Scratch.{Kept};
ghost use Rattle.compiled_paths.specs.Paths.{paths_in};
ghost use Rattle.selection.specs.first_paths.Firsts.{first_of, Noted, FirstsPass, FirstPaths, selected_count};

use crate::select_path;
use axis_passes::rows::Rows;
use axis_passes::scratch::Scratch;
use cells::row_sets::MARKED;
use compiled_paths::CompiledPaths;

// No path selects the row. A byte and no Option: the column has one for each row of a table, in fixed memory.
pub const NO_PATH: u8 = 0;

// What is noted of a row, with one path more.
fn first_of(mark: u8, first: u8, place: u8) -> u8
    ensures { result ≡ first_of mark first place }
{
    if mark == MARKED && first == NO_PATH {
        place
    } else {
        first
    }
}

// Notes a path for the marked rows that no path before it selects.
fn note(marks: &[u8], place: u8, firsts: &mut [u8])
    requires { length marks.now ≡ length firsts.old }
    ensures { Noted marks.now place firsts.old firsts.new }
{
    for (r, mark) in marks.iter().enumerate() {
        firsts[r] = first_of(*mark, firsts[r], place);
    }
}

// All paths, on a table that is not empty; `marks` is scratch, too, a byte for each row.
pub fn first_paths(
    rows: &Rows,
    paths: &CompiledPaths,
    firsts: &mut [u8],
    marks: &mut [u8],
    scratch: &mut Scratch,
)
    requires { FirstsPass rows.now paths.now firsts.old marks.old scratch.old }
    ensures firsts { FirstPaths (parents_in rows.now) (codes_in rows.now) (paths_in paths.now) firsts.new }
    ensures kept { Kept scratch.old scratch.new }
{
    firsts.fill(NO_PATH);
    for i in 0..paths.count {
        select_path(rows, paths, i, marks, scratch);
        note(&marks[..], (i + 1) as u8, firsts);
    }
}

// How many rows some path selects.
pub fn selected_count(firsts: &[u8]) -> usize
    ensures { result ≡ selected_count firsts.now }
{
    let mut n = 0;
    for first in firsts {
        n += usize::from(*first != NO_PATH);
    }
    n
}
