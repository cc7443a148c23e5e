// What any reader of a text needs: blanks, keywords and names from a place on, and cells in which places are noted. A part of a text is read
// as the place past it, or else the place where the text departs from it.
ghost use Rattle.std.specs.Prelude.{true, ◌≡◌, ◌≤◌, ◌<◌, length, set};
ghost use Rattle.text_spec.specs.Bytes.{starts_name};
ghost use Rattle.text_spec.specs.Scans.{byte_at};
ghost use Rattle.text.specs.scanning.Outcomes.{Skipped, Spaced, Spelt, Named};

use crate::limits::MAX_NAME_BYTES;

// Stores x at n, where there is such a cell.
pub fn note<T: Copy>(out: &mut [T], n: usize, x: T)
    ensures { out.new ≡ set out.old n x }
{
    if n < out.len() {
        out[n] = x;
    }
}

// The first place at or after `at` that holds no blank, or the length.
pub fn skip(s: &[u8], at: usize) -> usize
    requires { at ≤ length s.now }
    ensures { Skipped s.now at result }
{
    for i in at..s.len() {
        if !crate::is_blank(s[i]) {
            return i;
        }
    }
    s.len()
}

// Past the blanks at `at`, of which there must be one.
pub fn space(s: &[u8], at: usize) -> Result<usize, usize>
    requires { at ≤ length s.now }
    ensures { Spaced s.now at result }
{
    let i = skip(s, at);
    if i == at { Err(i) } else { Ok(i) }
}

// Past the bytes w at `at`.
pub fn spell(s: &[u8], at: usize, w: &[u8]) -> Result<usize, usize>
    requires { at ≤ length s.now }
    ensures { Spelt w.now s.now at result }
{
    for n in 0..w.len() {
        let k = at + n;
        if s.len() <= k || s[k] != w[n] {
            return Err(k);
        }
    }
    Ok(at + w.len())
}

// Past the name that starts at j and has at most 31 bytes.
pub fn name_end(s: &[u8], j: usize) -> Result<usize, usize>
    requires { (j < length s.now) × (starts_name (byte_at s.now j) ≡ true) }
    ensures { Named s.now j result }
{
    for e in j + 1..s.len() {
        if !crate::continues_name(s[e]) {
            return Ok(e);
        }
        if MAX_NAME_BYTES <= e - j {
            return Err(e);
        }
    }
    Ok(s.len())
}
