// What the lines of a listing are made of, in a lent buffer: a word and a number, the chain of tags of a row; the line of a refusal.
// The buffer and the place in it are two parameters and no writer: the public contracts of `put_number`, `put_tags`, `put_text` and `put_decimal`
// (`WrittenAt`, from a place to the next) may not change.
ghost use Rattle.std.specs.Prelude.{◌+◌, ◌≤◌, length};
ghost use Rattle.cells.specs.written_text.Written.{WrittenAt};
ghost use Rattle.chains.specs.tags.Chains.{chain_at};
ghost use Rattle.library_spec.specs.Listing.{refused_line};
ghost use Rattle.listing_text.specs.parts.Parts.{refusal, NumberAt, TagsPass};
ghost use Rattle.text.specs.refusals.Refusals.{refusal_in};

use cells::columns::Columns;
use cells::written_text::{put_decimal, put_text};
use chains::tags::ElementNames;
use text::refusals::Refusal;

// Writes a word and a number behind it.
pub fn put_number(out: &mut [u8], at: usize, word: &[u8], n: u64) -> usize
    requires { at + length word.now + 20 ≤ length out.old }
    ensures { NumberAt out.old at word.now n result out.new }
{
    let next = put_text(out, at, word);
    put_decimal(out, next, n)
}

// The line of a refusal by any number and place.
pub fn put_refusal_by(out: &mut [u8], number: u64, place: u64) -> usize
    requires { 100 ≤ length out.old }
    ensures { WrittenAt out.old 0 (refusal number place) result out.new }
{
    let first = put_number(out, 0, b"refused ", number);
    let second = put_number(out, first, b" at ", place);
    put_text(out, second, b"\n")
}

// The only line where a file is refused.
pub fn put_refusal(out: &mut [u8], refused: Refusal) -> usize
    requires { 100 ≤ length out.old }
    ensures { WrittenAt out.old 0 (refused_line (refusal_in refused)) result out.new }
{
    put_refusal_by(out, refused.reason.number(), refused.place as u64)
}

// Writes the chain of tags of a row from `at` on.
pub fn put_tags(
    names: &ElementNames,
    table: &Columns,
    row: usize,
    out: &mut [u8],
    at: usize,
) -> usize
    requires { TagsPass names.now.text.now names.now.starts.now names.now.sizes.now table.now.names.now table.now.parents.now row out.old at }
    ensures { WrittenAt out.old at (chain_at names.now.text.now names.now.starts.now names.now.sizes.now table.now.names.now table.now.parents.now row) result out.new }
{
    let size = names.write_chain(table, row, &mut out[at..]);
    at + size
}
