// The numbers that the paths asked for select on a table that is handed in, beside its text: refusal 1 of the place and of the table, 18 last.
ghost use Rattle.compiled_paths.specs.Paths.{Shaped, paths_in};
ghost use Rattle.selection.specs.lent.Lent.{SomeSchema, SelectsUnder};
ghost use Rattle.tables.specs.Handed.{read_table};

use crate::answers::{Selected, refused};
use crate::table::select_table;
use axis_passes::rows::Rows;
use cells::columns::Columns;
use compiled_paths::CompiledPaths;
use names::MAX_ELEMENTS;
use tables::is_table_beside;
use text::refusals::{Reason, Refusal};

// Selects by compiled paths; `words` has for each element of the schema the names that it holds.
// Eight parameters: the values of `select_nodes`; table, count and text are `Rows` only once they are judged, which is done here.
pub fn select_lent(
    paths: &CompiledPaths,
    words: &[u64; MAX_ELEMENTS],
    place: usize,
    table: &Columns,
    count: usize,
    lent: &[u8],
    items: &mut [u16],
    counts: &mut [u32],
) -> Result<Selected, Refusal>
    requires { Shaped paths.now × SomeSchema words.now }
    ensures { SelectsUnder words.now (paths_in paths.now) place (read_table table.now count) lent.now items counts result }
{
    if paths.count < place || !is_table_beside(table, count, words, lent) {
        return refused(Refusal::of(Reason::BadRecord), items, counts);
    }
    let rows = Rows {
        columns: table.first(count),
        text: lent,
    };
    select_table(paths, place, &rows, items, counts)
}
