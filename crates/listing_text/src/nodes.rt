// The line of a selected node in a lent buffer.
ghost use Rattle.cells.specs.written_text.Written.{WrittenAt};
ghost use Rattle.chains.specs.tags.Chains.{chain_at};
ghost use Rattle.listing_text.specs.nodes.Nodes.{line_of, LinePass};

use crate::parts::{put_number, put_tags};
use cells::columns::Columns;
use cells::written_text::{put_decimal, put_text};
use chains::tags::ElementNames;

// A selected node: its number, the place of the first path that selects it, its chain of tags.
pub fn put_line(
    names: &ElementNames,
    table: &Columns,
    row: usize,
    number: u64,
    place: u64,
    out: &mut [u8],
) -> usize
    requires { LinePass names.now.text.now names.now.starts.now names.now.sizes.now table.now.names.now table.now.parents.now row out.old }
    ensures { WrittenAt out.old 0 (line_of number place (chain_at names.now.text.now names.now.starts.now names.now.sizes.now table.now.names.now table.now.parents.now row)) result out.new }
{
    let first = put_decimal(out, 0, number);
    let second = put_number(out, first, b" ", place);
    let third = put_text(out, second, b" ");
    let fourth = put_tags(names, table, row, out, third);
    put_text(out, fourth, b"\n")
}
