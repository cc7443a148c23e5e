// One row of a table: whether it is a text's, and whether it is the root element.
ghost use Rattle.std.specs.Prelude.{◌≡◌};
ghost use Rattle.table_laws.specs.passes.Passes.{is_text_code, root_fits};

use cells::columns::RowCells;
use names::MAX_ELEMENTS;

// Whether the code is that of a text name.
pub fn is_text(code: u8) -> bool
    ensures { result ≡ is_text_code code }
{
    MAX_ELEMENTS <= code as usize
}

// Whether row 0 is the root element, by its number and its other cells.
pub fn root_fits(number: u16, row: RowCells) -> bool
    ensures { result ≡ root_fits number row.name row.parent row.start row.size row.decoded }
{
    number == 0
        && row.name == 0
        && row.parent == 0
        && row.start == 0
        && row.size == 0
        && row.decoded == 0
}
