// Selecting from an extract under an accepted schema and bundle, both compiled: the extract's rows in the lent columns, and the numbers that the
// paths asked for select on them.
ghost use Rattle.std.specs.Prelude.{◌≤◌};
ghost use Rattle.cells.specs.columns.Lent.{Same, lent_columns, read_columns};
ghost use Rattle.compiled_paths.specs.Paths.{Shaped, paths_in};
ghost use Rattle.host_selecting.specs.accepted.Choosing.{EverySchema, FirstAsked, SelectedUnder, SelectsFirst, UnderSchema};
ghost use Rattle.hosts.specs.laws.Stages.{chosen_under};
ghost use Rattle.hosts.specs.results.Settled.{SelectingSettled};

use axis_passes::rows::Rows;
use cells::columns::{Columns, ColumnsMut};
use compiled_paths::CompiledPaths;
use extract_reader::table::read_extract_table;
use hosts::results::Answered;
use hosts::texts::Texts;
use selection::answers::Selected;
use selection::table::select_table;
use text::refusals::Refusal;

// Selects on the first `count` rows in the columns, the rows of an extract.
fn select_first(
    paths: &CompiledPaths,
    place: usize,
    table: &Columns,
    count: usize,
    extract: &[u8],
    items: &mut [u16],
    counts: &mut [u32],
) -> Result<Selected, Refusal>
    requires { Shaped paths.now × (place ≤ paths.now.count) × FirstAsked (read_columns table.now) count extract.now }
    ensures { SelectsFirst (read_columns table.now) count (paths_in paths.now) place result items counts }
{
    let rows = Rows {
        columns: table.first(count),
        text: extract,
    };
    select_table(paths, place, &rows, items, counts)
}

// The same on columns that are lent; no row is left in them where selecting is refused.
fn select_under(
    paths: &CompiledPaths,
    place: usize,
    extract: &[u8],
    rows: usize,
    columns: &mut ColumnsMut,
    items: &mut [u16],
    counts: &mut [u32],
) -> Result<Answered, Refusal>
    requires { Shaped paths.now × (place ≤ paths.now.count) × FirstAsked (lent_columns columns.old) rows extract.now }
    ensures same { Same columns.old columns.new }
    ensures selected { SelectedUnder paths.now place rows (lent_columns columns.old) (lent_columns columns.new) items.old counts.old items.new counts.new result }
{
    match select_first(
        paths,
        place,
        &columns.as_columns(),
        rows,
        extract,
        items,
        counts,
    ) {
        Ok(selected) => Ok(Answered {
            rows,
            items: selected.items,
            counts: selected.counts,
        }),
        Err(refusal) => {
            columns.clear();
            Err(refusal)
        }
    }
}

// The extract's rows in the columns, and then what is selected; on refusal no cell is left.
pub fn choose_under(
    texts: &Texts,
    place: usize,
    extract: &[u8],
    columns: &mut ColumnsMut,
    items: &mut [u16],
    counts: &mut [u32],
) -> Result<Answered, Refusal>
    requires { UnderSchema texts.now place (lent_columns columns.old) }
    ensures same { Same columns.old columns.new }
    ensures chosen { EverySchema texts.now.schema (λ s. SelectingSettled (chosen_under s (paths_in texts.now.paths) place extract.now) (lent_columns columns.old) items.old counts.old result (lent_columns columns.new) items.new counts.new) }
{
    let words = texts.schema.held_words();
    match read_extract_table(extract, &words, columns) {
        Ok(rows) => select_under(&texts.paths, place, extract, rows, columns, items, counts),
        Err(refusal) => {
            items.fill(0);
            counts.fill(0);
            Err(refusal)
        }
    }
}
