// The rows of a table that have a position, written into other columns, parents renumbered.
ghost use Rattle.cells.specs.columns.Lent.{read_columns, lent_columns, Left};
ghost use Rattle.kept_rows.specs.cut_rows.Rows.{RowPass, CutPass, RowsWritten, row_added};

use crate::NOT_KEPT;
use cells::columns::{Columns, ColumnsMut};

// Writes row `r` at its position, if it has one; its parent's row becomes that row's position.
fn cut_row(table: &Columns, positions: &[u16], out: &mut ColumnsMut, r: usize)
    requires { RowPass positions.now (read_columns table.now) (lent_columns out.old) r }
    ensures { Left out.old out.new (row_added positions.now (read_columns table.now) r (lent_columns out.old)) }
{
    let x = positions[r];
    if x == NOT_KEPT {
        return;
    }
    let at = (x - 1) as usize;
    out.numbers[at] = table.numbers[r];
    out.names[at] = table.names[r];
    out.parents[at] = positions[table.parents[r] as usize] - 1;
    out.starts[at] = table.starts[r];
    out.lengths[at] = table.lengths[r];
    out.decoded[at] = table.decoded[r];
}

// Writes the rows that have a position, one after the other.
pub fn write_rows(table: &Columns, positions: &[u16], out: &mut ColumnsMut)
    requires { CutPass positions.now (read_columns table.now) (lent_columns out.old) }
    ensures { RowsWritten positions.now (read_columns table.now) out.old out.new }
{
    for r in 0..positions.len() {
        cut_row(table, positions, out, r);
    }
}
