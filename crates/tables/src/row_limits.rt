// The limits of one row of a table: the lengths of its text, its depth and its cells.
ghost use Rattle.std.specs.Prelude.{not, ◌&&◌, ◌≡◌, suc, ◌≤◌, eqb, leb};
ghost use Rattle.text_spec.specs.Limits.{max_depth, max_text_bytes};

use text::limits;
use text::limits::MAX_DEPTH;

// How long a text may be.
const MAX_TEXT_BYTES: u16 = limits::MAX_TEXT_BYTES as u16;

// Whether a text may stand here with these lengths, raw and decoded: not after another text. Where the decoded length is 1 to the raw one,
// the raw one is at least 1, which needs no test.
pub fn text_fits(text: bool, length: u16, decoded: u16) -> bool
    ensures { result ≡ (not text && (leb 1 length && (leb length max_text_bytes && (leb 1 decoded && leb decoded length)))) }
{
    !text && 1 <= decoded && decoded <= length && length <= MAX_TEXT_BYTES
}

// Whether an element may stand under a parent of this depth, with these cells for a text that it has not.
pub fn element_fits(depth: usize, start: u32, length: u16, decoded: u16) -> bool
    requires { depth ≤ max_depth }
    ensures { result ≡ (leb (suc depth) max_depth && (eqb start 0 && (eqb length 0 && eqb decoded 0))) }
{
    depth < MAX_DEPTH && start == 0 && length == 0 && decoded == 0
}
