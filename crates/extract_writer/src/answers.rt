// The extract of a tested table in lent bytes, and the answer where the table has not passed.
ghost use Rattle.std.specs.Prelude.{true, length};
ghost use Rattle.cells.specs.columns.Lent.{read_columns};
ghost use Rattle.cells.specs.row_sets.Columns.{marks};
ghost use Rattle.cells.specs.verdicts.Verdicts.{in_bytes, AnsweredBytes, AnsweredSlice};
ghost use Rattle.extract_writer.specs.rows.Rows.{ExtractColumns};
ghost use Rattle.extract_writer.specs.writing.Extract.{extract_in};
ghost use Rattle.text_spec.specs.Refusals.{refused, at, bad_record};

use crate::writing::write_table;
use cells::columns::Columns;
use cells::lent::fill_from;
use text::refusals::{Reason, Refusal};

// Refusal 1, with no byte written.
pub fn refuse(out: &mut [u8]) -> Result<usize, Refusal>
    ensures { AnsweredBytes (refused (at bad_record 0)) (length out.old) result out.new }
{
    fill_from(out, 0, 0);
    Err(Refusal::of(Reason::BadRecord))
}

// The extract of a tested table, or 18.
pub fn write_in_room(text: &[u8], table: &Columns, out: &mut [u8]) -> Result<usize, Refusal>
    requires { ExtractColumns text.now (read_columns table.now) (length table.now.numbers.now) }
    ensures { AnsweredSlice (λ n. in_bytes n (extract_in text.now (read_columns table.now) (marks (length table.now.numbers.now) (λ r. true)))) result out }
{
    let room = out.len();
    let size = write_table(text, table, out);
    if room < size {
        return Err(Refusal::of(Reason::TooFewCells));
    }
    Ok(size)
}
