// Cutting a table that has passed its test into other lent columns.
ghost use Rattle.cells.specs.columns.Lent.{read_columns, lent_columns};
ghost use Rattle.cells.specs.lent.Columns.{first_cells};
ghost use Rattle.cut_table.specs.laws.Answers.{Cuttable, CutFirstIn};
ghost use Rattle.kept_rows.specs.Kept.{in_set};
ghost use Rattle.tables.specs.Handed.{read_table};

use crate::answers::answer_in;
use cells::columns::{Columns, ColumnsMut};
use kept_rows::columns::cut;
use names::NameSet;
use text::refusals::Refusal;

// The rows that the set keeps, of a table that has passed its test; 18 where there are too few cells for them.
pub fn cut_first(
    set: NameSet,
    table: &Columns,
    count: usize,
    out: &mut ColumnsMut,
) -> Result<usize, Refusal>
    requires { Cuttable (read_table table.now count) (lent_columns out.old) }
    ensures { CutFirstIn (in_set set) (first_cells count (read_columns table.now)) result out.old out.new }
{
    let room = out.room();
    // Column by column: `Columns::first` asks that all have as many cells, and here each need have the rows alone.
    let first = Columns {
        numbers: &table.numbers[..count],
        names: &table.names[..count],
        parents: &table.parents[..count],
        starts: &table.starts[..count],
        lengths: &table.lengths[..count],
        decoded: &table.decoded[..count],
    };
    let n = cut(set, &first, out);
    answer_in(room, n)
}
