// The numbers that compiled paths select on a table in columns, joined and counted, in lent cells.
ghost use Rattle.axis_passes.specs.scratch.Scratch.{Kept};
ghost use Rattle.selection.specs.joined_paths.Joined.{AllPass, JoinedIn};

use crate::one_path::select_one;
use axis_passes::rows::Rows;
use axis_passes::scratch::Scratch;
use cells::lent::{fill_from, put};
use compiled_paths::CompiledPaths;
use std::ops::Range;

// Writes the numbers that the paths asked for select, joined, and how many each selects; past them zeros. Gives how many numbers they are: more
// than there are cells where the room is too small. `marks` is scratch, too. Counts are wider than numbers: a path may select more nodes than the
// largest number (D25).
pub fn select_paths(
    rows: &Rows,
    paths: &CompiledPaths,
    asked: Range<usize>,
    items: &mut [u16],
    counts: &mut [u32],
    marks: &mut [u8],
    scratch: &mut Scratch,
) -> usize
    requires { AllPass rows.now paths.now asked.start asked.end marks.old scratch.old }
    ensures joined { JoinedIn rows.now paths.now asked.start asked.end items counts result }
    ensures kept { Kept scratch.old scratch.new }
{
    let mut n: usize = 0;
    for i in asked.start..asked.end {
        let m = select_one(rows, paths, i, items, n, marks, scratch);
        put(counts, i - asked.start, (m - n) as u32);
        n = m;
    }
    fill_from(items, n, 0);
    fill_from(counts, asked.end - asked.start, 0);
    n
}
