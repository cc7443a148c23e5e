// Text written into lent bytes from a place on: bytes as they are, and numbers in decimal.
ghost use Rattle.std.specs.Prelude.{◌+◌, ◌≤◌, length};
ghost use Rattle.cells.specs.written_text.Written.{WrittenAt};
ghost use Rattle.library_spec.specs.Listing.{decimal};

// Writes a text from `at` on, and gives the cell past it. A loop, as in `row_sets::copy`.
pub fn put_text(out: &mut [u8], at: usize, text: &[u8]) -> usize
    requires { at + length text.now ≤ length out.old }
    ensures { WrittenAt out.old at text.now result out.new }
{
    for (i, byte) in text.iter().enumerate() {
        out[at + i] = *byte;
    }
    at + text.len()
}

// Writes a number in decimal, its higher digits first, and gives the cell past it.
pub fn put_decimal(out: &mut [u8], at: usize, n: u64) -> usize
    requires { at + length (decimal n) ≤ length out.old }
    ensures { WrittenAt out.old at (decimal n) result out.new }
{
    if n < 10 {
        out[at] = b'0' + n as u8;
        return at + 1;
    }
    let end = put_decimal(out, at, n / 10);
    out[end] = b'0' + (n % 10) as u8;
    end + 1
}
