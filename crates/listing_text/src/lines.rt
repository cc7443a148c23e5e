// What `listing` prints of a row, in a lent buffer.
ghost use Rattle.cells.specs.written_text.Written.{WrittenAt};
ghost use Rattle.listing_text.specs.lines.Lines.{line_in, RowPass};

use crate::nodes::put_line;
use cells::columns::Columns;
use chains::tags::ElementNames;

// The line of a row: nothing where no path selects it.
pub fn put_row(
    names: &ElementNames,
    table: &Columns,
    firsts: &[u8],
    row: usize,
    out: &mut [u8],
) -> usize
    requires { RowPass names.now.text.now names.now.starts.now names.now.sizes.now table.now.names.now table.now.parents.now table.now.numbers.now firsts.now row out.old }
    ensures { WrittenAt out.old 0 (line_in names.now table.now firsts.now row) result out.new }
{
    // A byte, of which 0 stands for no path, and no Option: `firsts` is a column of bytes (fixed memory), and `line_in` reads it so.
    let place = firsts[row];
    if place == 0 {
        return 0;
    }
    let number = u64::from(table.numbers[row]);
    put_line(names, table, row, number, u64::from(place), out)
}
