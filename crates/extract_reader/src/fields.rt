// A whole field of an extract: its tag, its length and its value. The first one is judged apart: it is the root's, or the count of an empty table.
ghost use Rattle.std.specs.Prelude.{◌≡◌, ◌+◌, ◌≤◌, length};
ghost use Rattle.extract_reader.specs.fields.Fields.{CountPass, CountAs, FieldPass, FieldAs, FirstAs};
ghost use Rattle.projection_laws.specs.extract_passes.Steps.{has_field};

use crate::field_ends::{is_count, is_root};
use crate::field_tests::two_bytes;
use crate::field_values::Field;
use crate::reading::Reader;
use extract_writer::fields::{COUNT_TAG, ELEMENT_TAG, TEXT_TAG};

// Whether a whole field stands at a place.
fn has_field(extract: &[u8], at: usize) -> bool
    requires { at ≤ length extract.now }
    ensures { result ≡ has_field extract.now at }
{
    extract.len() - at >= 3 && two_bytes(extract, at + 1) as usize <= extract.len() - (at + 3)
}

// Whether the first field is the root's. Where it may stand and is not, it is the count of an empty table.
pub fn begins_with_root(extract: &[u8]) -> Option<bool>
    ensures { FirstAs extract.now result }
{
    if !has_field(extract, 0) {
        return None;
    }
    let size = two_bytes(extract, 1) as usize;
    match extract[0] {
        ELEMENT_TAG => is_root(extract, size).then_some(true),
        COUNT_TAG => is_count(extract, 0, 0, size).then_some(false),
        _ => None,
    }
}

impl Reader<'_> {
    // The field of a count.
    fn count_field(&self, size: usize) -> Option<Field>
        requires { CountPass self.now.extract.now self.now.carried size }
        ensures { CountAs self.now.extract.now self.now.carried size result }
    {
        is_count(self.extract, self.carried.at, self.carried.rows, size).then_some(Field::Count)
    }

    // The field at the carried place, if it may stand there.
    pub fn read_field(&self) -> Option<Field>
        requires { FieldPass self.now.extract.now self.now.levels self.now.carried }
        ensures { FieldAs self.now.extract.now self.now.words.now self.now.levels self.now.carried result }
    {
        let at = self.carried.at;
        if !has_field(self.extract, at) {
            return None;
        }
        let size = two_bytes(self.extract, at + 1) as usize;
        match self.extract[at] {
            ELEMENT_TAG => self.element_field(size),
            TEXT_TAG => self.text_field(size),
            COUNT_TAG => self.count_field(size),
            _ => None,
        }
    }
}
