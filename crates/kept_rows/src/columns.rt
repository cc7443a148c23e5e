// Cutting a table in columns to a set of names, into other lent columns.
ghost use Rattle.cells.specs.columns.Lent.{read_columns, lent_columns};
ghost use Rattle.kept_rows.specs.Kept.{in_set};
ghost use Rattle.kept_rows.specs.columns.Cut.{Cutting, CutColumns, CutInto};

use crate::cut_rows::write_rows;
use crate::{NOT_KEPT, number_kept};
use cells::columns::{Columns, ColumnsMut};
use names::NameSet;
use text::limits::MAX_NODES;

// Cuts a table to a set of names: the rows kept, and then zeros, or zeros alone where there is too little room. Gives how many rows are
// kept. `positions` is scratch, a cell for each row.
fn cut_into(set: NameSet, table: &Columns, positions: &mut [u16], out: &mut ColumnsMut) -> usize
    requires { Cutting (read_columns table.now) positions.old (lent_columns out.old) }
    ensures { CutInto (in_set set) (read_columns table.now) result out.old out.new }
{
    let n = number_kept(set, table.names, table.parents, positions) as usize;
    if out.room() < n {
        out.clear_from(0);
        return n;
    }
    write_rows(table, positions, out);
    out.clear_from(n);
    n
}

// The same with scratch of its own: two bytes for each row that there can be, 131,070 in all.
pub fn cut(set: NameSet, table: &Columns, out: &mut ColumnsMut) -> usize
    requires { CutColumns (read_columns table.now) (lent_columns out.old) }
    ensures { CutInto (in_set set) (read_columns table.now) result out.old out.new }
{
    let mut positions = [NOT_KEPT; MAX_NODES];
    let count = table.parents.len();
    cut_into(set, table, &mut positions[..count], out)
}
