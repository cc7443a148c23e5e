// A row of a table after the first: what is tested of it in a pass over the columns.
ghost use Rattle.std.specs.Prelude.{◌≡◌, ◌≤◌};
ghost use Rattle.table_laws.specs.passes.Passes.{later_fits};
ghost use Rattle.text_spec.specs.Limits.{max_depth};

use crate::row_limits::{element_fits, text_fits};
use crate::row_tests::is_text;
use cells::columns::RowCells;
use names::bits::has_bit;
use text::limits;

// One more than the highest number of a row.
const MAX_NODES: u16 = limits::MAX_NODES as u16;

// Whether a row fits after the row with the number `before`, which is a text or not, and under a parent of this depth, which holds the names
// whose bits are in `word`.
pub fn later_fits(
    before: u16,
    text: bool,
    word: u64,
    depth: usize,
    number: u16,
    row: RowCells,
) -> bool
    requires { depth ≤ max_depth }
    ensures { result ≡ later_fits before text word depth number row.name row.start row.size row.decoded }
{
    before < number
        && number < MAX_NODES
        && has_bit(word, row.name as usize)
        && if is_text(row.name) {
            text_fits(text, row.size, row.decoded)
        } else {
            element_fits(depth, row.start, row.size, row.decoded)
        }
}
