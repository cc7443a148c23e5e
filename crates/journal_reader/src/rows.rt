// The row that a step of the builder begins, put into the lent columns.
ghost use Rattle.cells.specs.columns.Columns.{EqualColumns};
ghost use Rattle.cells.specs.columns.Lent.{lent_columns};
ghost use Rattle.journal_reader.specs.rows.Kept.{Kept};
ghost use Rattle.journal_reader.specs.rows.Rows.{RowAdded};

use cells::columns::ColumnsMut;
use journal_builder::build_state::BuildStep;

// Puts the row, if a node has begun since there were `count`.
pub fn add_row(columns: &mut ColumnsMut, count: usize, x: BuildStep)
    requires { EqualColumns (lent_columns columns.old) }
    ensures same { Kept columns.old columns.new }
    ensures row { RowAdded (lent_columns columns.old) count x (lent_columns columns.new) }
{
    if let Some(row) = x.row {
        columns.put_row(count, row);
    }
}
