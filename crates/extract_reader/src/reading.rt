// An extract read field by field: where reading stands.
ghost use Rattle.extract_reader.specs.reading.Readers.{AfterRoot, BitWidths};

use crate::levels::Level;
use names::MAX_ELEMENTS;
use text::limits::MAX_DEPTH;

// What is carried from field to field: the place of the next one, how many rows stand before, the number of the row before, whether it is a text,
// how many elements are open.
#[derive(Clone, Copy)]
pub struct Carried {
    pub at: usize,
    pub rows: usize,
    pub number: usize,
    pub text: bool,
    pub depth: usize,
}

// `words` has for each element of the schema the names that it holds, as bits; `levels` the open elements, the root's first.
#[derive(Drop)]
pub struct Reader<'a> {
    pub extract: &'a [u8],
    pub words: &'a [u64; MAX_ELEMENTS],
    pub levels: [Level; MAX_DEPTH],
    pub carried: Carried,
}

impl<'a> Reader<'a> {
    // Past the root's field, which has eight bytes. The root's row is all zeros, and clear columns hold it already; so is its level.
    pub fn after_root(extract: &'a [u8], words: &'a [u64; MAX_ELEMENTS]) -> Reader<'a>
        ensures start { AfterRoot extract.now words.now result }
        ensures widths { BitWidths result }
    {
        let root = Level {
            row: 0,
            number: 0,
            element: 0,
        };
        let carried = Carried {
            at: 8,
            rows: 1,
            number: 0,
            text: false,
            depth: 1,
        };
        Reader {
            extract,
            words,
            levels: [root; MAX_DEPTH],
            carried,
        }
    }
}
