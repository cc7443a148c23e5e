// An extract read into lent columns under a schema: 2 first, then 17, 18 last, every lent cell at exit.
ghost use Rattle.std.specs.Prelude.{[], ◌≡◌};
ghost use Rattle.cells.specs.columns.Columns.{EqualColumns};
ghost use Rattle.cells.specs.columns.Lent.{lent_columns, Same};
ghost use Rattle.extract_reader.specs.rows.Reads.{Hold};
ghost use Rattle.extract_reader.specs.table.Tables.{Judged, TableRead};
ghost use Rattle.table_spec.specs.Columns.{sizes_of};

use crate::rows::read_rows;
use cells::columns::ColumnsMut;
use names::MAX_ELEMENTS;
use text::refusals::{Reason, Refusal};

// The rows in the columns, which are clear at first, and how many they are.
fn judge(
    extract: &[u8],
    words: &[u64; MAX_ELEMENTS],
    columns: &mut ColumnsMut,
) -> Result<usize, Refusal>
    requires equal { EqualColumns (lent_columns columns.old) }
    requires clear { Hold (lent_columns columns.old) [] }
    ensures same { Same columns.old columns.new }
    ensures sizes { sizes_of (lent_columns columns.new) ≡ sizes_of (lent_columns columns.old) }
    ensures judged { Judged extract.now words.now (lent_columns columns.old) (lent_columns columns.new) result }
{
    if extract.is_empty() {
        return Err(Refusal::of(Reason::BadLength));
    }
    let room = columns.room();
    let rows = read_rows(extract, words, columns)?;
    if room < rows {
        return Err(Refusal::of(Reason::TooFewCells));
    }
    Ok(rows)
}

// `words` has for each element of the schema the names that it holds.
pub fn read_extract_table(
    extract: &[u8],
    words: &[u64; MAX_ELEMENTS],
    columns: &mut ColumnsMut,
) -> Result<usize, Refusal>
    requires { EqualColumns (lent_columns columns.old) }
    ensures same { Same columns.old columns.new }
    ensures sizes { sizes_of (lent_columns columns.new) ≡ sizes_of (lent_columns columns.old) }
    ensures read { TableRead extract.now words.now (lent_columns columns.old) (lent_columns columns.new) result }
{
    columns.clear();
    let answer = judge(extract, words, columns);
    if answer.is_err() {
        columns.clear();
    }
    answer
}
