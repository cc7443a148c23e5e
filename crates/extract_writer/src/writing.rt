// Writing the extract of a table beside its text, and of the rows of a table that a set of names keeps: no second table, no renumbering,
// since a field has its parent's number and not its row.
ghost use Rattle.std.specs.Prelude.{true, length};
ghost use Rattle.cells.specs.columns.Lent.{read_columns};
ghost use Rattle.cells.specs.row_sets.Columns.{marks};
ghost use Rattle.extract_writer.specs.rows.Rows.{ExtractColumns};
ghost use Rattle.extract_writer.specs.writing.Extract.{extract_in, WrittenIn, ExtractPass};
ghost use Rattle.kept_rows.specs.Kept.{in_set, kept_marks, KeptColumns};

use crate::fields::COUNT_BYTES;
use crate::rows::measure;
use crate::writers::Writer;
use cells::columns::Columns;
use cells::lent::fill_from;
use cells::row_sets::{MARKED, UNMARKED};
use kept_rows::mark_kept;
use names::NameSet;
use text::limits::MAX_NODES;

// The extract of the marked rows, and then zeros, or zeros alone where there is too little room. Gives how many bytes it has.
fn write_marked(text: &[u8], table: &Columns, kept: &[u8], out: &mut [u8]) -> usize
    requires { ExtractPass text.now (read_columns table.now) kept.now }
    ensures { WrittenIn out (extract_in text.now (read_columns table.now) kept.now) result }
{
    let measured = measure(table.names, table.decoded, kept);
    let size = measured.bytes + COUNT_BYTES;
    if out.len() < size {
        fill_from(out, 0, 0);
        return size;
    }
    let mut writer = Writer { out, at: 0 };
    writer.put_rows(text, table, kept);
    writer.put_count(measured.rows);
    writer.clear_rest();
    size
}

// The extract of a whole table: 65,535 bytes of scratch.
pub fn write_table(text: &[u8], table: &Columns, out: &mut [u8]) -> usize
    requires { ExtractColumns text.now (read_columns table.now) (length table.now.numbers.now) }
    ensures { WrittenIn out (extract_in text.now (read_columns table.now) (marks (length table.now.numbers.now) (λ r. true))) result }
{
    let every = [MARKED; MAX_NODES];
    write_marked(text, table, &every[..table.numbers.len()], out)
}

// The extract of the rows that a set keeps; the scratch has a byte for each row that there can be, 65,535 in all.
pub fn write_kept(set: NameSet, text: &[u8], table: &Columns, out: &mut [u8]) -> usize
    requires columns { ExtractColumns text.now (read_columns table.now) (length table.now.numbers.now) }
    requires kept { KeptColumns table.now.names.now table.now.parents.now }
    ensures { WrittenIn out (extract_in text.now (read_columns table.now) (kept_marks (in_set set) table.now.names.now table.now.parents.now)) result }
{
    let mut scratch = [UNMARKED; MAX_NODES];
    let kept = &mut scratch[..table.numbers.len()];
    mark_kept(set, table.names, table.parents, kept);
    write_marked(text, table, kept, out)
}
