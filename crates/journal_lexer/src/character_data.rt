// One byte of a journal's character data: a function for each mode, which is handed the byte and its kind.
ghost use Rattle.journal_lexer.specs.character_data.Runs.{Plain};
ghost use Rattle.journal_lexer.specs.state.Relation.{Handed, Steps};

use crate::data_runs::{data_byte, entity_begins, entity_ends, tag_opens};
use crate::entities::EntityRest;
use crate::kinds::ByteKind;
use crate::state::{Event, Lex, Mode, Places, stop};

pub fn between_byte(places: &mut Places, l: Lex, b: u8, c: ByteKind) -> Lex
    requires { Handed l places.old b c }
    ensures { Steps Mode.Between l places.old b result places.new }
{
    if c == ByteKind::Less {
        return tag_opens(places, l, Event::Quiet);
    }
    places.saved = 0;
    data_byte(places, l, l.place as u32, b, c)
}

pub fn blanks_byte(places: &mut Places, l: Lex, b: u8, c: ByteKind) -> Lex
    requires { Handed l places.old b c }
    ensures { Steps Mode.Blanks l places.old b result places.new }
{
    if c == ByteKind::Less {
        return tag_opens(places, l, Event::Runs);
    }
    let start = places.start;
    data_byte(places, l, start, b, c)
}

// A byte that is not part of `]]>`, where the run has a byte that is not a blank. Most bytes are plain, and one test is made of these.
fn plain_byte(places: &mut Places, l: Lex, b: u8, c: ByteKind) -> Lex
    requires { Handed l places.old b c }
    ensures { Plain l places.old b c result places.new }
{
    if c.is_plain() {
        return l.goes(Mode::Solid);
    }
    match c {
        ByteKind::Less => tag_opens(places, l, Event::Runs),
        ByteKind::Ampersand => entity_begins(places, l),
        ByteKind::Bracket => l.goes(Mode::AfterBracket),
        _ => {
            places.note_foreign(l.place, c);
            l.goes(Mode::Solid)
        }
    }
}

pub fn solid_byte(places: &mut Places, l: Lex, b: u8, c: ByteKind) -> Lex
    requires { Handed l places.old b c }
    ensures { Steps Mode.Solid l places.old b result places.new }
{
    plain_byte(places, l, b, c)
}

pub fn after_bracket_byte(places: &mut Places, l: Lex, b: u8, c: ByteKind) -> Lex
    requires { Handed l places.old b c }
    ensures { Steps Mode.AfterBracket l places.old b result places.new }
{
    if c == ByteKind::Bracket {
        return l.goes(Mode::AfterBrackets);
    }
    plain_byte(places, l, b, c)
}

pub fn after_brackets_byte(places: &mut Places, l: Lex, b: u8, c: ByteKind) -> Lex
    requires { Handed l places.old b c }
    ensures { Steps Mode.AfterBrackets l places.old b result places.new }
{
    match c {
        ByteKind::Bracket => l.goes(Mode::AfterBrackets),
        ByteKind::Greater => {
            places.at = l.place.saturating_sub(2) as u32;
            l.goes(Mode::Stopped)
        }
        _ => plain_byte(places, l, b, c),
    }
}

pub fn entity_byte(places: &mut Places, l: Lex, b: u8, c: ByteKind) -> Lex
    requires { Handed l places.old b c }
    ensures { Steps Mode.InEntity l places.old b result places.new }
{
    let Some(rest) = l.rest.after(b) else {
        return stop(places, l, c);
    };
    places.note_foreign(l.place, c);
    if rest == EntityRest::Ended {
        entity_ends(places, l.place);
        return l.goes(Mode::Solid);
    }
    l.enters(rest)
}
