// What `listing` takes from the columns of a journal's table, of 4,096 rows at most: how many rows the needed names keep, and the first path
// that selects each row. Scratch is local: a byte or two for each row.
ghost use Rattle.std.specs.Prelude.{◌≡◌, length};
ghost use Rattle.axis_passes.specs.rows.Rows.{HeldTexts, parents_in, codes_in};
ghost use Rattle.compiled_paths.specs.Paths.{paths_in};
ghost use Rattle.kept_rows.specs.Joined.{rank};
ghost use Rattle.kept_rows.specs.Kept.{in_set, kept_marks};
ghost use Rattle.listing_files.specs.table.Tables.{KeptAsked, PathsAsked};
ghost use Rattle.selection.specs.first_paths.Firsts.{FirstPaths};

use axis_passes::rows::Rows;
use axis_passes::scratch::Scratch;
use cells::columns::Columns;
use compiled_paths::CompiledPaths;
use kept_rows::{NOT_KEPT, number_kept};
use names::NameSet;
use selection::first_paths::first_paths;
use text::limits::LISTED_ROWS;

// How many rows the set keeps.
pub fn kept_count(set: NameSet, table: &Columns) -> usize
    requires { KeptAsked table.now.names.now table.now.parents.now }
    ensures { result ≡ rank (kept_marks (in_set set) table.now.names.now table.now.parents.now) (length (kept_marks (in_set set) table.now.names.now table.now.parents.now)) }
{
    let mut positions = [NOT_KEPT; LISTED_ROWS];
    let count = table.parents.len();
    usize::from(number_kept(set, table.names, table.parents, &mut positions[..count]))
}

// The first of the paths that selects each row.
pub fn note_paths(rows: &Rows, paths: &CompiledPaths, firsts: &mut [u8])
    requires { PathsAsked paths.now rows.now firsts.old × HeldTexts rows.now }
    ensures { FirstPaths (parents_in rows.now) (codes_in rows.now) (paths_in paths.now) firsts.new }
{
    let count = rows.columns.parents.len();
    if count == 0 {
        return;
    }
    let mut marks = [0u8; LISTED_ROWS];
    let mut held = [0u8; LISTED_ROWS];
    let mut steps = [0u8; LISTED_ROWS];
    let mut next = [0u8; LISTED_ROWS];
    let mut scratch = Scratch {
        held: &mut held[..count],
        steps: &mut steps[..count],
        next: &mut next[..count],
    };
    first_paths(rows, paths, firsts, &mut marks[..count], &mut scratch);
}
