// The header of a listing in a lent buffer.
ghost use Rattle.std.specs.Prelude.{◌≤◌, length};
ghost use Rattle.cells.specs.written_text.Written.{WrittenAt};
ghost use Rattle.library_spec.specs.Listing.{header};

use crate::parts::put_number;
use cells::written_text::put_text;

// The header: nodes selected, rows kept, rows in all.
pub fn put_header(out: &mut [u8], chosen: u64, kept: u64, rows: u64) -> usize
    requires { 100 ≤ length out.old }
    ensures { WrittenAt out.old 0 (header chosen kept rows) result out.new }
{
    let first = put_number(out, 0, b"selected ", chosen);
    let second = put_number(out, first, b" kept ", kept);
    let third = put_number(out, second, b" of ", rows);
    put_text(out, third, b"\n")
}
