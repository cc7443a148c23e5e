// Cutting a table that is handed in, under the schema of some sets.
ghost use Rattle.cut_table.specs.laws.Answers.{HeldCutIn};
ghost use Rattle.cut_table.specs.schema_sets.Sets.{SetsOf, OfSchema};
ghost use Rattle.schema_spec.specs.Schemas.{Schema as Elements};
ghost use Rattle.tables.specs.Handed.{read_table};

use crate::answers::refuse;
use crate::lent::cut_first;
use crate::schema_sets::SchemaSets;
use cells::columns::{Columns, ColumnsMut};
use names::known::handed_in;
use tables::is_table;
use text::refusals::Refusal;

// Cuts a table that is handed in, under the schema of these sets: the table's test first, and then that of the lent columns.
pub fn cut_lent(
    sets: &SchemaSets,
    table: &Columns,
    count: usize,
    word: u64,
    out: &mut ColumnsMut,
) -> Result<usize, Refusal>
    requires { OfSchema sets.now }
    ensures { (s : Elements) → SetsOf s sets.now → HeldCutIn s (read_table table.now count) word result out.old out.new }
{
    let held = is_table(table, count, &sets.words);
    if !held || !out.are_equal() {
        return refuse(out);
    }
    cut_first(handed_in(word, sets.all), table, count, out)
}
