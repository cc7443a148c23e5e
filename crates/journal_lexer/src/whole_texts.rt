// Bytes judged by themselves: whether they are one journal text, and how many characters it stands for.
ghost use Rattle.std.specs.Prelude.{◌≡◌, ◌≤◌, ◌<◌, length, IsTrue, ◌↔◌};
ghost use Rattle.journal_lexer.specs.kinds.Kinds.{KindTable};
ghost use Rattle.journal_lexer.specs.state.Places.{no_place, Lent};
ghost use Rattle.journal_lexer.specs.whole_texts.Runs.{RunMode, Fresh, Come, size_at};
ghost use Rattle.text_spec.specs.Lists.{value_or};
ghost use Rattle.token_spec.specs.Texts.{decoded_size};

use crate::kinds::ByteKind;
use crate::mode_loops::mode_step;
use crate::state::{Lex, Mode, Places};
use crate::{character_data, data_loops, step};

// In character data or in an entity.
fn in_run(mode: Mode) -> bool
    ensures { IsTrue result ↔ RunMode mode }
{
    mode.is_data() || mode == Mode::InEntity
}

// Reads the first run of character data, up to a tag, to what is misspelt or to the end.
// A `while` and no `mode_run`: it goes on in a set of modes, and between bytes whole entities are passed.
fn read_run(text: &[u8], kinds: &[ByteKind; 256], places: &mut Places) -> Lex
    requires { Fresh text.now kinds.now places.old }
    ensures { Come text.now result places.new }
{
    let first = Lex::initial();
    let between = Mode::Between;
    let mut s = mode_step(
        text,
        kinds,
        places,
        first,
        between,
        character_data::between_byte,
    );
    while s.place < text.len() && in_run(s.mode) {
        let b = text[s.place];
        let next = step::step(places, s, b, kinds[b as usize]);
        let entity = data_loops::entity_run(text, kinds, places, next);
        s = data_loops::characters_run(text, kinds, places, entity);
    }
    s
}

// The characters of so many bytes, if they are all read and leave a run open that began with the first.
fn run_size(size: usize, places: &Places, l: Lex) -> usize
    requires { Lent l.place places.now × (l.place ≤ size) }
    ensures { result ≡ size_at size places.now l.place l.mode }
{
    if l.place < size || !l.mode.is_data() || places.start != 0 {
        return 0;
    }
    size - places.saved as usize
}

// How many characters the bytes stand for, by the lent table of kinds; 0 if they are not one journal text.
pub fn decoded_size_by(text: &[u8], kinds: &[ByteKind; 256]) -> usize
    requires { KindTable kinds.now × (length text.now < no_place) }
    ensures { result ≡ value_or 0 (decoded_size text.now) }
{
    let mut places = Places::none();
    let l = read_run(text, kinds, &mut places);
    run_size(text.len(), &places, l)
}
