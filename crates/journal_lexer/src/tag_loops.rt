// Reading on in a journal's tags: a loop for each mode that lasts, and one over the step for the modes that have none of their own.
ghost use Rattle.std.specs.Prelude.{◌≡◌, IsTrue, ◌↔◌};
ghost use Rattle.journal_lexer.specs.loop_laws.Advance.{Ready, Advance};
ghost use Rattle.journal_lexer.specs.tag_loops.Modes.{RareMode, TagMode};

use crate::kinds::ByteKind;
use crate::mode_loops::{mode_run, mode_step};
use crate::state::{Event, Lex, Mode, Places};
use crate::{step, tags};

// The modes that few bytes are read in, and that no event ends in.
fn is_rare(mode: Mode) -> bool
    ensures { IsTrue result ↔ RareMode mode }
{
    !matches!(
        mode,
        Mode::Between | Mode::Blanks | Mode::Solid | Mode::Opened
    )
}

// A `while` and no `mode_run`: it goes on in a set of modes, by the place that the step leaves.
fn rare_run(t: &[u8], kinds: &[ByteKind; 256], places: &mut Places, l: Lex) -> Lex
    requires { Ready t.now kinds.now l places.old }
    ensures { Advance RareMode t.now l places.old result places.new }
{
    let mut s = l;
    while s.place < t.len() && is_rare(s.mode) {
        let b = t[s.place];
        s = step::step(places, s, b, kinds[b as usize]);
    }
    s
}

// Reads on in a tag, up to an event, another mode or the end.
pub fn tag_part(t: &[u8], kinds: &[ByteKind; 256], places: &mut Places, l: Lex) -> Lex
    requires { Ready t.now kinds.now l places.old × (l.event ≡ Event.Quiet) }
    ensures { Advance TagMode t.now l places.old result places.new }
{
    let opened = mode_step(t, kinds, places, l, Mode::Opened, tags::opened_byte);
    let ending = mode_run(t, kinds, places, opened, Mode::Ending, tags::ending_byte);
    let name = mode_run(t, kinds, places, ending, Mode::InName, tags::name_byte);
    let end_name = mode_run(t, kinds, places, name, Mode::InEndName, tags::end_name_byte);
    rare_run(t, kinds, places, end_name)
}
