// The fields of the marked rows of a table in columns: how many bytes they take, and writing them.
ghost use Rattle.std.specs.Prelude.{◌≡◌, length};
ghost use Rattle.cells.specs.columns.Lent.{read_columns};
ghost use Rattle.extract_writer.specs.rows.Measure.{marked_size, MeasurePass, MeasuredAs};
ghost use Rattle.extract_writer.specs.rows.Rows.{field_at, marked_field, field_size, RowPass, FieldsPass};
ghost use Rattle.extract_writer.specs.writers.Writers.{Puts};
ghost use Rattle.kept_rows.specs.Joined.{joined};

use crate::fields::{ELEMENT_BYTES, TEXT_HEAD_BYTES};
use crate::writers::Writer;
use cells::columns::Columns;
use cells::row_sets::MARKED;
use names::MAX_ELEMENTS;

#[derive(Clone, Copy)]
pub struct Measured {
    pub bytes: usize,
    pub rows: u16,
}

// How many bytes the field of a row takes. The name is a code, below 32 an element's, and no enum: the column is lent over the C interface.
fn field_size(name: u8, decoded: u16) -> usize
    ensures { result ≡ field_size name decoded }
{
    if (name as usize) < MAX_ELEMENTS {
        ELEMENT_BYTES
    } else {
        TEXT_HEAD_BYTES + decoded as usize
    }
}

// The same, 0 for a row that is not marked.
fn marked_size(mark: u8, name: u8, decoded: u16) -> usize
    ensures { result ≡ marked_size mark name decoded }
{
    if mark == MARKED {
        field_size(name, decoded)
    } else {
        0
    }
}

// How many bytes the fields of the marked rows take, and how many rows are marked.
pub fn measure(names: &[u8], decoded: &[u16], marks: &[u8]) -> Measured
    requires { MeasurePass names.now decoded.now marks.now }
    ensures { MeasuredAs names.now decoded.now marks.now result.bytes result.rows }
{
    let mut bytes = 0;
    let mut rows: u16 = 0;
    for r in 0..marks.len() {
        bytes += marked_size(marks[r], names[r], decoded[r]);
        rows += marks[r] as u16;
    }
    Measured { bytes, rows }
}

impl Writer<'_> {
    // Writes the field of row `r`, if its mark is set.
    fn put_row(&mut self, text: &[u8], table: &Columns, mark: u8, r: usize)
        requires { RowPass text.now (read_columns table.now) mark r self.old }
        ensures { Puts self.old (marked_field text.now (read_columns table.now) mark r) self.new }
    {
        if mark != MARKED {
            return;
        }
        let number = table.numbers[r];
        let p = table.parents[r] as usize;
        let parent = table.numbers[p];
        // a code here, too
        let name = table.names[r];
        if (name as usize) < MAX_ELEMENTS {
            self.put_element(number, parent, name);
            return;
        }
        let from = table.starts[r] as usize;
        let to = from + table.lengths[r] as usize;
        self.put_text(number, parent, &text[from..to], table.decoded[r]);
    }

    // Writes the fields of the marked rows, one after the other.
    pub fn put_rows(&mut self, text: &[u8], table: &Columns, marks: &[u8])
        requires { FieldsPass text.now (read_columns table.now) marks.now self.old }
        ensures { Puts self.old (joined (field_at text.now (read_columns table.now)) marks.now (length marks.now)) self.new }
    {
        for r in 0..marks.len() {
            self.put_row(text, table, marks[r], r);
        }
    }
}
