// The texts of a table beside a lent text: each range lies inside it, and each of its bytes passes refusal 3. A row with two equal
// lengths is copied; the bytes of any other must be one journal text that decodes to its decoded length.
ghost use Rattle.std.specs.Prelude.{◌≡◌, ◌+◌, ◌≤◌, ◌<◌, length};
ghost use Rattle.cells.specs.columns.Lent.{read_columns};
ghost use Rattle.journal_lexer.specs.kinds.Kinds.{KindTable};
ghost use Rattle.journal_lexer.specs.state.Places.{no_place};
ghost use Rattle.table_laws.specs.passes.Texts.{range_decodes};
ghost use Rattle.table_spec.specs.Columns.{cells_at};
ghost use Rattle.tables.specs.rows.Lent.{TextsLent};
ghost use Rattle.tables.specs.text_ranges.Left.{copied, text_fits, texts_in, Left};

use crate::range_tests::range_passes;
use crate::row_tests::is_text;
use cells::columns::Columns;
use journal_lexer::kinds::{ByteKind, all_kinds};
use journal_lexer::whole_texts::decoded_size_by;

// Whether a row is no text, or one with such a range that is copied: its lengths are equal.
fn is_copied(lent: &[u8], table: &Columns, row: usize) -> bool
    requires { TextsLent (read_columns table.now) (row + 1) }
    ensures { result ≡ copied lent.now (cells_at (read_columns table.now) row) }
{
    let size = table.lengths[row];
    !is_text(table.names[row])
        || table.decoded[row] == size
            && range_passes(lent, table.starts[row] as usize, size as usize)
}

// Whether a range inside the text is copied, or decodes to so many characters. No text decodes to none.
fn range_decodes(
    lent: &[u8],
    start: usize,
    size: usize,
    decoded: usize,
    kinds: &[ByteKind; 256],
) -> bool
    requires { KindTable kinds.now × (start + size ≤ length lent.now) × (size < no_place) }
    ensures { result ≡ range_decodes lent.now start size decoded }
{
    decoded == size || decoded != 0 && decoded_size_by(&lent[start..start + size], kinds) == decoded
}

// Whether a row is no text, or one with such a range that is copied or decodes to its decoded length.
fn text_passes(lent: &[u8], table: &Columns, row: usize, kinds: &[ByteKind; 256]) -> bool
    requires { TextsLent (read_columns table.now) (row + 1) × KindTable kinds.now }
    ensures { result ≡ text_fits lent.now (cells_at (read_columns table.now) row) }
{
    let start = table.starts[row] as usize;
    let size = table.lengths[row] as usize;
    !is_text(table.names[row])
        || range_passes(lent, start, size)
            && range_decodes(lent, start, size, table.decoded[row] as usize, kinds)
}

// The first row that is a text and not copied, or `count`: the rows before it pass, and none of their texts was decoded.
fn copied_rows(lent: &[u8], table: &Columns, count: usize) -> usize
    requires { TextsLent (read_columns table.now) count }
    ensures { Left lent.now (read_columns table.now) count result }
{
    (0..count)
        .find(
            |&i|
                requires { TextsLent (read_columns table.now) (i + 1) }
            { !is_copied(lent, table, i) },
        )
        .unwrap_or(count)
}

// Whether the rows from `first` on pass as well, where those before it do. The table of kinds costs 256 steps.
fn later_texts_pass(lent: &[u8], table: &Columns, first: usize, count: usize) -> bool
    requires { TextsLent (read_columns table.now) count × Left lent.now (read_columns table.now) count first }
    ensures { result ≡ texts_in lent.now (read_columns table.now) count }
{
    let kinds = all_kinds();
    (first..count).all(
        |i|
            requires { TextsLent (read_columns table.now) (i + 1) × KindTable kinds }
        { text_passes(lent, table, i, &kinds) },
    )
}

// Whether each of the first `count` rows that is a text has such a range and such lengths. Where all are copied no table of kinds is
// made.
pub fn texts_pass(lent: &[u8], table: &Columns, count: usize) -> bool
    requires { TextsLent (read_columns table.now) count }
    ensures { result ≡ texts_in lent.now (read_columns table.now) count }
{
    let first = copied_rows(lent, table, count);
    first == count || later_texts_pass(lent, table, first, count)
}
