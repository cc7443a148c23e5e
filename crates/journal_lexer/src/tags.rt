// One byte of a journal's tags: a function for each mode, which is handed the byte and its kind.
ghost use Rattle.std.specs.Prelude.{List, [], ◌∷◌, ◌≡◌, ℕ, ◌<◌};
ghost use Rattle.journal_lexer.specs.kinds.Kinds.{tag_by, end_tag_by};
ghost use Rattle.journal_lexer.specs.state.Places.{no_place};
ghost use Rattle.journal_lexer.specs.state.Relation.{Holds, named, Handed, Meant, Steps};
ghost use Rattle.journal_lexer.specs.tags.Names.{Longer};
ghost use Rattle.text.specs.name_words.Words.{words_of};

use crate::kinds::ByteKind;
use crate::state::{Event, Lex, Mode, Places, stop};
use text::limits;
use text::name_words::Name;

// The longest name.
const MAX_NAME_BYTES: u32 = limits::MAX_NAME_BYTES as u32;

// The first byte of a name.
fn begun(mode: Mode, l: Lex, b: u8) -> Lex
    requires { l.place < no_place }
    ensures { result ≡ named mode 1 (words_of (b ∷ [])) l }
{
    l.names(mode, 1, Name::first(b))
}

// One byte more of a name.
fn longer(mode: Mode, l: Lex, b: u8) -> Lex
    requires { l.place < no_place }
    ensures { (n : List ℕ) → Holds l.name l.count n → Longer mode l n b result }
{
    let n = l.count;
    if MAX_NAME_BYTES <= n {
        return l.goes(Mode::Stopped);
    }
    l.names(mode, n + 1, l.name.with(n, b))
}

// After `<`.
pub fn opened_byte(places: &mut Places, l: Lex, b: u8, c: ByteKind) -> Lex
    requires { Handed l places.old b c }
    ensures { Steps Mode.Opened l places.old b result places.new }
{
    match c {
        ByteKind::Slash => l.goes(Mode::Ending),
        ByteKind::Letter => begun(Mode::InName, l, b),
        _ => stop(places, l, c),
    }
}

// Past the name of a start tag or an empty tag.
fn past_name(places: &mut Places, l: Lex, b: u8, c: ByteKind) -> Lex
    requires { Handed l places.old b c }
    ensures { (n : List ℕ) → Holds l.name l.count n → Meant l places.old b result places.new (tag_by places.old.at n c) }
{
    match c {
        ByteKind::Blank => l.goes(Mode::AfterName),
        ByteKind::Greater => l.tells(Mode::Between, Event::Starts),
        ByteKind::Slash => l.goes(Mode::AfterSlash),
        _ => stop(places, l, c),
    }
}

// `end_name_byte` is its twin: one function for both, with the mode and what follows the name passed in, is no plainer.
pub fn name_byte(places: &mut Places, l: Lex, b: u8, c: ByteKind) -> Lex
    requires { Handed l places.old b c }
    ensures { Steps Mode.InName l places.old b result places.new }
{
    if c.continues_name() {
        return longer(Mode::InName, l, b);
    }
    past_name(places, l, b, c)
}

pub fn after_name_byte(places: &mut Places, l: Lex, b: u8, c: ByteKind) -> Lex
    requires { Handed l places.old b c }
    ensures { Steps Mode.AfterName l places.old b result places.new }
{
    past_name(places, l, b, c)
}

pub fn after_slash_byte(places: &mut Places, l: Lex, b: u8, c: ByteKind) -> Lex
    requires { Handed l places.old b c }
    ensures { Steps Mode.AfterSlash l places.old b result places.new }
{
    if c == ByteKind::Greater {
        return l.tells(Mode::Between, Event::Empties);
    }
    stop(places, l, c)
}

// After `</`.
pub fn ending_byte(places: &mut Places, l: Lex, b: u8, c: ByteKind) -> Lex
    requires { Handed l places.old b c }
    ensures { Steps Mode.Ending l places.old b result places.new }
{
    if c == ByteKind::Letter {
        return begun(Mode::InEndName, l, b);
    }
    stop(places, l, c)
}

// Past the name of an end tag.
fn past_end_name(places: &mut Places, l: Lex, b: u8, c: ByteKind) -> Lex
    requires { Handed l places.old b c }
    ensures { (n : List ℕ) → Holds l.name l.count n → Meant l places.old b result places.new (end_tag_by places.old.at n c) }
{
    match c {
        ByteKind::Blank => l.goes(Mode::AfterEndName),
        ByteKind::Greater => l.tells(Mode::Between, Event::Ends),
        _ => stop(places, l, c),
    }
}

pub fn end_name_byte(places: &mut Places, l: Lex, b: u8, c: ByteKind) -> Lex
    requires { Handed l places.old b c }
    ensures { Steps Mode.InEndName l places.old b result places.new }
{
    if c.continues_name() {
        return longer(Mode::InEndName, l, b);
    }
    past_end_name(places, l, b, c)
}

pub fn after_end_name_byte(places: &mut Places, l: Lex, b: u8, c: ByteKind) -> Lex
    requires { Handed l places.old b c }
    ensures { Steps Mode.AfterEndName l places.old b result places.new }
{
    past_end_name(places, l, b, c)
}

// Once misspelt, nothing more is read.
pub fn stopped_byte(places: &mut Places, l: Lex, b: u8, c: ByteKind) -> Lex
    requires { Handed l places.old b c }
    ensures { Steps Mode.Stopped l places.old b result places.new }
{
    stop(places, l, c)
}
