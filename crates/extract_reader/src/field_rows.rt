// The row that a field of an extract makes, and the element that it opens.
ghost use Rattle.extract_reader.specs.field_rows.Steps.{ElementPlace, TextPlace, ElementRead, TextRead, Ready, Steps};
ghost use Rattle.extract_reader.specs.reading.Readers.{BitWidths};

use crate::field_values::Field;
use crate::levels::Level;
use crate::reading::{Carried, Reader};
use names::MAX_ELEMENTS;
use text::refusals::{Reason, Refusal};

// The cells of a row: its number, the code of its name, its parent's row, the start and the length of its text.
// A code, 32 more for a text's name, and no enum: the column is lent over the C interface.
#[derive(Clone, Copy)]
pub struct FieldRow {
    pub number: u16,
    pub name: u8,
    pub parent: u16,
    pub start: u32,
    pub size: u16,
}

impl Reader<'_> {
    // The row of an element under the last of the first `depth` open elements, which is opened.
    fn element_row(&mut self, number: u16, element: u8, depth: usize) -> FieldRow
        requires { ElementPlace self.old.carried number depth }
        ensures { ElementRead self.old number element depth self.new result }
    {
        let parent = self.levels[depth - 1].row;
        self.levels[depth] = Level {
            row: self.carried.rows as u16,
            number,
            element: u32::from(element),
        };
        self.carried = Carried {
            at: self.carried.at + 8,
            rows: self.carried.rows + 1,
            number: usize::from(number),
            text: false,
            depth: depth + 1,
        };
        FieldRow {
            number,
            name: element,
            parent,
            start: 0,
            size: 0,
        }
    }

    // The row of a text there.
    fn text_row(&mut self, number: u16, depth: usize, size: usize) -> FieldRow
        requires { TextPlace self.old.levels self.old.carried number depth size }
        ensures { TextRead self.old number depth size self.new result }
    {
        let level = self.levels[depth - 1];
        let start = self.carried.at + 7;
        self.carried = Carried {
            at: start + size,
            rows: self.carried.rows + 1,
            number: usize::from(number),
            text: true,
            depth,
        };
        FieldRow {
            number,
            name: level.element as u8 + MAX_ELEMENTS as u8,
            parent: level.row,
            start: start as u32,
            size: size as u16,
        }
    }

    // The row of the next field; none at the count.
    pub fn next_row(&mut self) -> Result<Option<FieldRow>, Refusal>
        requires { Ready self.old.extract.now self.old.levels self.old.carried }
        ensures step { Steps self.old self.new result }
        ensures widths { BitWidths self.old → BitWidths self.new }
    {
        let Some(field) = self.read_field() else {
            return Err(Refusal::of(Reason::BadExtract));
        };
        match field {
            Field::Count => Ok(None),
            Field::Element {
                number,
                element,
                depth,
            } => Ok(Some(self.element_row(number, element, depth))),
            Field::Text {
                number,
                depth,
                size,
            } => Ok(Some(self.text_row(number, depth, size))),
        }
    }
}
