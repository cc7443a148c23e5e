// The chain of tags of a row in lent cells, with refusal 18.
ghost use Rattle.cells.specs.verdicts.Verdicts.{AnsweredBytes, in_bytes};
ghost use Rattle.std.specs.Prelude.{length};
ghost use Rattle.chains.specs.tags.Chains.{chain_at, NamesAt, SizePass};

use crate::tags::ElementNames;
use cells::columns::Columns;
use cells::lent::fill_from;
use text::refusals::{Reason, Refusal};

// Writes the chain of a row into lent cells, and zeros past it, and gives how many bytes it has. Where they do not suffice nothing is written but zeros.
pub fn put_chain(
    names: &ElementNames,
    table: &Columns,
    row: usize,
    out: &mut [u8],
) -> Result<usize, Refusal>
    requires { NamesAt names.now.text.now names.now.starts.now names.now.sizes.now × SizePass names.now.sizes.now table.now.names.now table.now.parents.now row }
    ensures { AnsweredBytes (in_bytes (length out.old) (chain_at names.now.text.now names.now.starts.now names.now.sizes.now table.now.names.now table.now.parents.now row)) (length out.old) result out.new }
{
    let size = names.chain_size(table, row);
    if out.len() < size {
        out.fill(0);
        return Err(Refusal::of(Reason::TooFewCells));
    }
    let end = names.write_chain(table, row, out);
    fill_from(out, end, 0);
    Ok(end)
}
