// The fields that stand at an extract's ends: the root's, which is the first, and the count, which is the last.
ghost use Rattle.std.specs.Prelude.{◌≡◌, ◌+◌, ◌≤◌, eqb, length};
ghost use Rattle.extract_reader.specs.field_ends.Ends.{is_root, is_count};
ghost use Rattle.extract_spec.specs.Reading.{element_value, count_value};
ghost use Rattle.text_spec.specs.Lists.{part};

use crate::field_tests::two_bytes;

// Whether a value of `size` bytes, of the field at a place, is the count of so many rows, and the extract ends with it.
pub fn is_count(extract: &[u8], at: usize, rows: usize, size: usize) -> bool
    requires { at + 3 + size ≤ length extract.now }
    ensures { result ≡ is_count rows (eqb (at + 3 + size) (length extract.now)) (count_value (part (at + 3) size extract.now)) }
{
    let from = at + 3;
    size == 2 && from + 2 == extract.len() && two_bytes(extract, from) as usize == rows
}

// Whether a field's value of `size` bytes is that of the root, in the first field.
pub fn is_root(extract: &[u8], size: usize) -> bool
    requires { 3 + size ≤ length extract.now }
    ensures { result ≡ is_root (element_value (part 3 size extract.now)) }
{
    size == 5 && two_bytes(extract, 3) == 0 && two_bytes(extract, 5) == 0 && extract[7] == 0
}
