// Bytes written one after the other into lent cells.
ghost use Rattle.std.specs.Prelude.{[], ◌∷◌, ◌+◌, ◌<◌, ◌≤◌, length};
ghost use Rattle.extract_spec.specs.Fields.{two_bytes};
ghost use Rattle.extract_writer.specs.writers.Writers.{Puts, RestCleared};

use cells::lent::fill_from;
use cells::written_text::put_text;

// The cells, and how many of them are written.
#[derive(Drop)]
pub struct Writer<'a> {
    pub out: &'a mut [u8],
    pub at: usize,
}

impl Writer<'_> {
    #[tactic(auto, unfolding(crate::specs::writers::Writers::stored))]
    pub fn put(&mut self, byte: u8)
        requires { self.old.at < length self.old.out.now }
        ensures { Puts self.old (byte ∷ []) self.new }
    {
        self.out[self.at] = byte;
        self.at += 1;
    }

    #[tactic(auto, unfolding(crate::specs::writers::Writers::stored))]
    pub fn put_all(&mut self, bytes: &[u8])
        requires { self.old.at + length bytes.now ≤ length self.old.out.now }
        ensures { Puts self.old bytes.now self.new }
    {
        self.at = put_text(self.out, self.at, bytes);
    }

    // A number in two bytes, the high one first. Byte by byte: a row has three such numbers, and `put_all` would copy each by a call.
    pub fn put_two(&mut self, number: u16)
        requires { self.old.at + 2 ≤ length self.old.out.now }
        ensures { Puts self.old (two_bytes number) self.new }
    {
        let [high, low] = number.to_be_bytes();
        self.put(high);
        self.put(low);
    }

    // Clears the cells that are not written.
    pub fn clear_rest(&mut self)
        ensures { RestCleared self.old self.new }
    {
        fill_from(self.out, self.at, 0);
    }
}
