// The fields of an extract: a tag of one byte, a length of two, high byte first, and a value.
ghost use Rattle.std.specs.Prelude.{[], ◌+◌, ◌≤◌, length};
ghost use Rattle.extract_spec.specs.Fields.{two_bytes, field, count_tag, row_field};
ghost use Rattle.extract_writer.specs.fields.Fields.{whole_characters, TextPass, head};
ghost use Rattle.extract_writer.specs.writers.Writers.{Puts};
ghost use Rattle.schema_spec.specs.Names.{element, text};

use crate::writers::Writer;

// Tags are bytes of the extract (document 01), and no enum: they are written and read as they are.
pub const ELEMENT_TAG: u8 = 1;

pub const TEXT_TAG: u8 = 2;

pub const COUNT_TAG: u8 = 3;

// How long fields are: that of an element, that of a text but for its bytes, and that of the count.
pub const ELEMENT_BYTES: usize = 8;

pub const TEXT_HEAD_BYTES: usize = 7;

pub const COUNT_BYTES: usize = 5;

impl Writer<'_> {
    // The tag, the length of the value, the node's number and its parent's.
    fn put_head(&mut self, tag: u8, size: u16, number: u16, parent: u16)
        requires { self.old.at + 7 ≤ length self.old.out.now }
        ensures { Puts self.old (head tag size number parent) self.new }
    {
        self.put(tag);
        self.put_two(size);
        self.put_two(number);
        self.put_two(parent);
    }

    // The field of an element.
    pub fn put_element(&mut self, number: u16, parent: u16, e: u8)
        requires { self.old.at + 8 ≤ length self.old.out.now }
        ensures { Puts self.old (row_field (element e) number parent []) self.new }
    {
        self.put_head(ELEMENT_TAG, 5, number, parent);
        self.put(e);
    }

    // The field of a text of so many characters; its name stands in no field.
    pub fn put_text(&mut self, number: u16, parent: u16, bytes: &[u8], decoded: u16)
        requires { TextPass bytes.now decoded self.old.out.now self.old.at }
        ensures { Puts self.old (row_field (text 0) number parent (whole_characters decoded bytes.now)) self.new }
    {
        self.put_head(TEXT_TAG, decoded + 4, number, parent);
        self.put_characters(bytes, decoded as usize);
    }

    // The field of the count of rows.
    pub fn put_count(&mut self, rows: u16)
        requires { self.old.at + 5 ≤ length self.old.out.now }
        ensures { Puts self.old (field count_tag (two_bytes rows)) self.new }
    {
        self.put(COUNT_TAG);
        self.put_two(2);
        self.put_two(rows);
    }
}
