// The characters of a text written: the text as it is where they are as many as its bytes, else each of the five entities as one character and any other byte as
// it is.
ghost use Rattle.std.specs.Prelude.{◌≡◌, ◌+◌, ◌<◌, ◌≤◌, length, get_or};
ghost use Rattle.extract_writer.specs.decoded_texts.Decoded.{FirstAmpersand, CharacterPut};
ghost use Rattle.extract_writer.specs.fields.Fields.{whole_characters};
ghost use Rattle.extract_writer.specs.writers.Writers.{Puts};
ghost use Rattle.token_spec.specs.Characters.{decode};

use crate::writers::Writer;
use journal_lexer::whole_entities::entity_after;

// How many bytes stand before the first `&`, if there is one.
fn first_ampersand(text: &[u8]) -> Option<usize>
    ensures { FirstAmpersand text.now result }
{
    text.iter().position(|&b| b == b'&')
}

impl Writer<'_> {
    // Writes the character that the bytes from the `&` at `i` on spell, and gives the place past them.
    fn put_character(&mut self, text: &[u8], i: usize) -> usize
        requires at { (i < length text.now) × (get_or text.now i 0 ≡ 0x26) }
        requires room { self.old.at < length self.old.out.now }
        ensures { CharacterPut text.now i self.old result self.new }
    {
        let character = entity_after(text, i + 1);
        self.put(character.byte);
        character.next
    }

    // Writes bytes that stand for themselves, with no call where there are none.
    fn put_plain(&mut self, bytes: &[u8])
        requires { self.old.at + length bytes.now ≤ length self.old.out.now }
        ensures { Puts self.old bytes.now self.new }
    {
        if bytes.is_empty() {
            return;
        }
        self.put_all(bytes);
    }

    // Writes the characters of a text.
    // A `while let`: each turn goes on over what is left of the text.
    fn put_decoded(&mut self, text: &[u8])
        requires { self.old.at + length (decode text.now) ≤ length self.old.out.now }
        ensures { Puts self.old (decode text.now) self.new }
    {
        let mut rest = text;
        while let Some(plain) = first_ampersand(rest) {
            self.put_plain(&rest[..plain]);
            let next = self.put_character(rest, plain);
            rest = &rest[next..];
        }
        self.put_plain(rest);
    }

    // Writes the characters of a text, of which there are so many.
    pub fn put_characters(&mut self, text: &[u8], decoded: usize)
        requires spelt { length (whole_characters decoded text.now) ≡ decoded }
        requires room { self.old.at + decoded ≤ length self.old.out.now }
        ensures { Puts self.old (whole_characters decoded text.now) self.new }
    {
        if decoded == text.len() {
            self.put_all(text);
        } else {
            self.put_decoded(text);
        }
    }
}
