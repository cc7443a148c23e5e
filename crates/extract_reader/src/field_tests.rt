// What a field of an extract is judged by: a number in two bytes, and whether a row may stand under an open element.
ghost use Rattle.std.specs.Prelude.{◌&&◌, ◌≡◌, ◌+◌, ◌-◌, ◌<◌, ◌≤◌, ltb, length, get_or};
ghost use Rattle.extract_reader.specs.field_tests.Tests.{held_by, LevelPass, element_under, text_under};
ghost use Rattle.extract_reader.specs.levels.Levels.{level_at, LevelFound};
ghost use Rattle.extract_spec.specs.Reading.{in_two};
ghost use Rattle.schema_spec.specs.Names.{element};
ghost use Rattle.text_spec.specs.Limits.{max_declarations, max_depth, max_nodes};

use crate::reading::Reader;
use names::MAX_ELEMENTS;
use names::bits::has_bit;
use text::limits::{MAX_DEPTH, MAX_NODES};

// The number in the two bytes at a place, the high one first.
pub fn two_bytes(extract: &[u8], k: usize) -> u16
    requires { k + 1 < length extract.now }
    ensures { result ≡ in_two (get_or extract.now k 0) (get_or extract.now (k + 1) 0) }
{
    u16::from_be_bytes([extract[k], extract[k + 1]])
}

// Whether a row may have this number after the row with the number `before`.
pub fn number_fits(before: usize, number: usize) -> bool
    ensures { result ≡ (ltb before number && ltb number max_nodes) }
{
    before < number && number < MAX_NODES
}

impl Reader<'_> {
    // How many elements stay open where the innermost of them is the one with this number.
    pub fn depth_under(&self, number: usize) -> Option<usize>
        requires { self.now.carried.depth ≤ max_depth }
        ensures { LevelFound self.now.levels self.now.carried.depth number result }
    {
        for i in (0..self.carried.depth).rev() {
            if usize::from(self.levels[i].number) == number {
                return Some(i + 1);
            }
        }
        None
    }

    // The last of the first `depth` open elements.
    fn last_element(&self, depth: usize) -> usize
        requires known { LevelPass self.now.levels depth }
        requires opened { 0 < depth }
        ensures element { result ≡ (level_at self.now.levels (depth - 1)).element }
        ensures small { result < max_declarations }
    {
        self.levels[depth - 1].element as usize
    }

    // Whether an element holds another one.
    fn holds_element(&self, parent: usize, child: usize) -> bool
        requires { parent < max_declarations }
        ensures { result ≡ held_by self.now.words.now (element parent) (element child) }
    {
        child < MAX_ELEMENTS && has_bit(self.words[parent], child)
    }

    // Whether an element may stand under the last of the first `depth` open elements. A guard first, here and below: the rest asks for the last one.
    pub fn element_fits(&self, depth: usize, child: u8) -> bool
        requires { LevelPass self.now.levels depth }
        ensures { result ≡ element_under self.now.words.now self.now.levels depth child }
    {
        if depth == 0 {
            return false;
        }
        depth < MAX_DEPTH && self.holds_element(self.last_element(depth), child as usize)
    }

    // Whether a text may stand there; none follows on a text.
    pub fn text_fits(&self, depth: usize) -> bool
        requires { LevelPass self.now.levels depth }
        ensures { result ≡ text_under self.now.words.now self.now.levels depth self.now.carried.text }
    {
        if depth == 0 {
            return false;
        }
        let parent = self.last_element(depth);
        !self.carried.text && has_bit(self.words[parent], parent + MAX_ELEMENTS)
    }
}
