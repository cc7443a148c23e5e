// The value of a field of an extract, judged by what the fields before it left: an element's and a text's.
ghost use Rattle.extract_reader.specs.field_values.Fields.{ValuePass, ElementAs, TextAs};

use crate::field_tests::{number_fits, two_bytes};
use crate::reading::Reader;
use text::foreign_bytes::any_foreign;
use text::limits::MAX_TEXT_BYTES;

// A field that may stand where it stands: the count, which ends the extract, or that of a row under the last of the first `depth` open elements.
#[derive(Clone, Copy)]
pub enum Field {
    Count,
    Element {
        number: u16,
        element: u8,
        depth: usize,
    },
    Text {
        number: u16,
        depth: usize,
        size: usize,
    },
}

impl Reader<'_> {
    // A field of an element, by its value of `size` bytes. Guards, here and below: a test a line reads plainer than all in one condition.
    pub fn element_field(&self, size: usize) -> Option<Field>
        requires { ValuePass self.now.extract.now self.now.levels self.now.carried size }
        ensures { ElementAs self.now.extract.now self.now.words.now self.now.levels self.now.carried size result }
    {
        if size != 5 {
            return None;
        }
        let from = self.carried.at + 3;
        let number = two_bytes(self.extract, from);
        let element = self.extract[from + 4];
        let depth = self.depth_under(usize::from(two_bytes(self.extract, from + 2)))?;
        if !number_fits(self.carried.number, usize::from(number)) {
            return None;
        }
        if !self.element_fits(depth, element) {
            return None;
        }
        Some(Field::Element {
            number,
            element,
            depth,
        })
    }

    // A field of a text, by its value of `size` bytes.
    pub fn text_field(&self, size: usize) -> Option<Field>
        requires { ValuePass self.now.extract.now self.now.levels self.now.carried size }
        ensures { TextAs self.now.extract.now self.now.words.now self.now.levels self.now.carried size result }
    {
        if size < 5 {
            return None;
        }
        if MAX_TEXT_BYTES + 4 < size {
            return None;
        }
        let from = self.carried.at + 3;
        let number = two_bytes(self.extract, from);
        let depth = self.depth_under(usize::from(two_bytes(self.extract, from + 2)))?;
        if !number_fits(self.carried.number, usize::from(number)) {
            return None;
        }
        if !self.text_fits(depth) {
            return None;
        }
        if any_foreign(&self.extract[from + 4..from + size]) {
            return None;
        }
        Some(Field::Text {
            number,
            depth,
            size: size - 4,
        })
    }
}
