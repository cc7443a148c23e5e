// Reading on in one mode, by its byte function: a single byte where an event may end in the mode, else each byte as long as it lasts.
// Here and in the loops above, text, kinds, places and state stand side by side: a struct of them is no plainer, since only the places are lent to be
// changed, the state comes back by value, and each call would put the struct together anew.
ghost use Rattle.std.specs.Prelude.{◌≡◌, IsTrue};
ghost use Rattle.journal_lexer.specs.loop_laws.Advance.{Ready, Advance, Lasting, only};
ghost use Rattle.journal_lexer.specs.mode_loops.Bytes.{Callable, Reads};

use crate::kinds::ByteKind;
use crate::state::{Event, Lex, Mode, Places};

// One byte at most.
pub fn mode_step<F: Fn(&mut Places, Lex, u8, ByteKind) -> Lex>(
    t: &[u8],
    kinds: &[ByteKind; 256],
    places: &mut Places,
    l: Lex,
    mode: Mode,
    byte: F,
) -> Lex
    requires ready { Ready t.now kinds.now l places.old }
    requires quiet { l.event ≡ Event.Quiet }
    requires callable { Callable (F.pre byte) }
    requires reads { Reads mode (F.post byte) }
    ensures { Advance (only mode) t.now l places.old result places.new }
{
    if l.place < t.len() && l.mode == mode {
        let b = t[l.place];
        return byte(places, l, b, kinds[b as usize]);
    }
    l
}

// As long as the mode lasts, in which no event ends.
// A `while`: it goes on by the place and the mode that the byte function leaves.
pub fn mode_run<F: Fn(&mut Places, Lex, u8, ByteKind) -> Lex>(
    t: &[u8],
    kinds: &[ByteKind; 256],
    places: &mut Places,
    l: Lex,
    mode: Mode,
    byte: F,
) -> Lex
    requires ready { Ready t.now kinds.now l places.old }
    requires lasting { Lasting mode }
    requires callable { Callable (F.pre byte) }
    requires reads { Reads mode (F.post byte) }
    ensures { Advance (only mode) t.now l places.old result places.new }
{
    let mut s = l;
    while s.place < t.len() && s.mode == mode {
        let b = t[s.place];
        s = byte(places, s, b, kinds[b as usize]);
    }
    s
}
