// Rows as cells, of the nodes that begin.
ghost use Rattle.std.specs.Prelude.{◌≡◌};
ghost use Rattle.journal_builder.specs.rows.Rows.{element_cells, text_cells};

use cells::columns::{ROW_LIMIT, RowCells};
use names::MAX_ELEMENTS;

// The codes of texts come after those of the elements.
const ELEMENTS: u8 = MAX_ELEMENTS as u8;

// The row of the element e; of an undeclared one its name is the code past those of the elements. There is no table of it.
pub fn element_row(e: Option<u8>, parent: usize) -> RowCells
    ensures { result ≡ element_cells e parent }
{
    RowCells {
        name: e.unwrap_or(ELEMENTS),
        parent: (parent % ROW_LIMIT) as u16,
        start: 0,
        size: 0,
        decoded: 0,
    }
}

// The row of a text of the element e, whose entities save so many bytes.
pub fn text_row(e: usize, parent: usize, start: u32, size: u32, saved: u32) -> RowCells
    ensures { result ≡ text_cells e parent start size saved }
{
    let decoded = size.saturating_sub(saved);
    RowCells {
        name: (e % MAX_ELEMENTS + MAX_ELEMENTS) as u8,
        parent: (parent % ROW_LIMIT) as u16,
        start,
        size: (size % 65536) as u16,
        decoded: (decoded % 65536) as u16,
    }
}
