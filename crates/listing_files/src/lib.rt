// The three files of a listing, read once: what is refused, or what the header and the lines are made of.
#![tactic(auto)]

pub mod contents;
pub mod table;

ghost use Rattle.std.specs.Prelude.{◌≡◌};
ghost use Rattle.cells.specs.columns.Lent.{lent_columns, Same};
ghost use Rattle.listing_files.specs.contents.Files.{RowsAsked, TextsIn, ListedRows, FilesLent, ListsAs};
ghost use Rattle.table_spec.specs.Columns.{sizes_of};

use crate::contents::Listed;
use crate::table::{kept_count, note_paths};
use axis_passes::rows::Rows;
use cells::columns::{Columns, ColumnsMut};
use hosts::texts::{Texts, judge_texts};
use journal::compiled::read_compiled;
use needed_names::sets::needed_under;
use selection::first_paths::selected_count;
use text::limits::LISTED_BYTES;
use text::refusals::Refusal;

// What is listed of the rows of a journal.
fn list_rows(
    schema: &[u8],
    texts: &Texts,
    table: &Columns,
    journal: &[u8],
    firsts: &mut [u8],
) -> Listed
    requires { RowsAsked schema.now texts.now table.now firsts.old × TextsIn table.now journal.now }
    ensures { ListedRows texts.now table.now firsts.new result }
{
    let needed = needed_under(&texts.schema, &texts.paths);
    let kept = kept_count(needed, table);
    let rows = Rows {
        columns: *table,
        text: journal,
    };
    note_paths(&rows, &texts.paths, firsts);
    let selected = selected_count(&firsts[..]);
    let names = texts.schema.names;
    Listed {
        selected,
        kept,
        rows: table.parents.len(),
        names,
    }
}

// Judges the files in turn, the first that is refused alone; the rows of the journal go to the columns, and the first path that selects each
// row to `firsts`.
pub fn list_files(
    schema: &[u8],
    bundle: &[u8],
    journal: &[u8],
    columns: &mut ColumnsMut,
    firsts: &mut [u8],
) -> Result<Listed, Refusal>
    requires { FilesLent (lent_columns columns.old) firsts.old }
    ensures same { Same columns.old columns.new }
    ensures sizes { sizes_of (lent_columns columns.new) ≡ sizes_of (lent_columns columns.old) }
    ensures listed { ListsAs schema.now bundle.now journal.now (lent_columns columns.new) firsts.new result }
{
    let texts = judge_texts(schema, bundle)?;
    let count = read_compiled(schema, &texts.schema, journal, LISTED_BYTES, columns)?;
    let table = columns.as_columns().first(count);
    Ok(list_rows(schema, &texts, &table, journal, &mut firsts[..count]))
}
