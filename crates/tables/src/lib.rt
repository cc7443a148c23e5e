// Tables that are handed in as lent columns: the test of refusal 1, without a text beside them and with one.
#![tactic(auto)]

pub mod later_rows;
pub mod range_tests;
pub mod row_counts;
pub mod row_limits;
pub mod row_tests;
pub mod row_text;
pub mod rows;
pub mod text_ranges;

ghost use Rattle.std.specs.Prelude.{◌≡◌, T};
ghost use Rattle.cells.specs.columns.Lent.{read_columns};
ghost use Rattle.schema_spec.specs.Schemas.{Schema};
ghost use Rattle.schema_spec.specs.Types.{types_of};
ghost use Rattle.table_laws.specs.passes.Codes.{HeldWords};
ghost use Rattle.tables.specs.Handed.{is_held, is_beside, read_table, sizes_fit};
ghost use Rattle.tables.specs.rows.Lent.{TextsLent};

use crate::rows::rows_fit;
use crate::text_ranges::texts_pass;
use cells::columns::Columns;
use names::MAX_ELEMENTS;

// Whether the columns are of one length, and have so many rows.
fn sizes_fit(table: &Columns, count: usize) -> bool
    ensures { result ≡ sizes_fit (read_table table.now count) }
{
    table.are_equal() && count <= table.numbers.len()
}

// Whether the columns are a well-formed table of `count` rows; they may have more cells than that, so the count stands beside them.
// `words` has for each element of the schema the names that it holds.
pub fn is_table(table: &Columns, count: usize, words: &[u64; MAX_ELEMENTS]) -> bool
    ensures held { (s : Schema) → HeldWords (types_of s) words.now → result ≡ is_held s (read_table table.now count) }
    ensures sized { T result → TextsLent (read_columns table.now) count }
{
    sizes_fit(table, count) && rows_fit(table, count, words)
}

// The same, and each text lies in the text that is lent beside the table, with bytes that pass 3 and that are copied or decode to its
// decoded length.
pub fn is_table_beside(
    table: &Columns,
    count: usize,
    words: &[u64; MAX_ELEMENTS],
    lent: &[u8],
) -> bool
    ensures { (s : Schema) → HeldWords (types_of s) words.now → result ≡ is_beside s lent.now (read_table table.now count) }
{
    is_table(table, count, words) && texts_pass(lent, table, count)
}
