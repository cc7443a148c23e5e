// The state of a journal's lexer between bytes.
ghost use Rattle.std.specs.Prelude.{◌≡◌, ◌<◌};
ghost use Rattle.journal_lexer.specs.state.Modes.{is_data_mode};
ghost use Rattle.journal_lexer.specs.state.Numbers.{mode_of, event_of, ModeMeans, EventTells};
ghost use Rattle.journal_lexer.specs.state.Places.{no_place, no_places, place_in, place_or, with_foreign};
ghost use Rattle.journal_lexer.specs.state.Relation.{stepped, named, entered, with_event, initially};

use crate::entities::EntityRest;
use crate::kinds::ByteKind;
use text::name_words::Name;

// What the bytes so far leave open.
#[derive(Clone, Copy, PartialEq, Eq)]
pub enum Mode {
    Between,
    // In character data: only blanks so far; some other byte; after one `]`; after more.
    Blanks,
    Solid,
    AfterBracket,
    AfterBrackets,
    InEntity,
    // After `<`; in the name of a start tag or an empty tag; after it; after its `/`.
    Opened,
    InName,
    AfterName,
    AfterSlash,
    // After `</`; in the name of an end tag; after it.
    Ending,
    InEndName,
    AfterEndName,
    // Misspelt: nothing more is read.
    Stopped,
}

impl Mode {
    fn numbered(number: u8) -> Mode
        ensures { result ≡ mode_of number }
    {
        match number {
            0 => Mode::Between,
            1 => Mode::Blanks,
            2 => Mode::Solid,
            3 => Mode::AfterBracket,
            4 => Mode::AfterBrackets,
            5 => Mode::InEntity,
            6 => Mode::Opened,
            7 => Mode::InName,
            8 => Mode::AfterName,
            9 => Mode::AfterSlash,
            10 => Mode::Ending,
            11 => Mode::InEndName,
            12 => Mode::AfterEndName,
            _ => Mode::Stopped,
        }
    }

    // The mode of a number. Past the last each reads as the last: `steps-last`.
    pub fn from_number(number: u8) -> Mode
        ensures number { result ≡ mode_of number }
        ensures means { ModeMeans number result }
    {
        Mode::numbered(number)
    }

    // Whether the mode is one of character data, outside an entity.
    pub fn is_data(self) -> bool
        ensures { result ≡ is_data_mode self }
    {
        matches!(
            self,
            Mode::Blanks | Mode::Solid | Mode::AfterBracket | Mode::AfterBrackets
        )
    }
}

// What the last byte ended.
#[derive(Clone, Copy, PartialEq, Eq)]
pub enum Event {
    Quiet,
    Starts,
    Empties,
    Ends,
    Runs,
}

impl Event {
    fn numbered(number: u8) -> Event
        ensures { result ≡ event_of number }
    {
        match number {
            0 => Event::Quiet,
            2 => Event::Empties,
            3 => Event::Ends,
            4 => Event::Runs,
            _ => Event::Starts,
        }
    }

    // The event of a number. Past the last each reads as a start tag.
    pub fn from_number(number: u8) -> Event
        ensures number { result ≡ event_of number }
        ensures means { EventTells number result }
    {
        Event::numbered(number)
    }
}

// The place of a number, of which the greatest is none.
pub fn place_of(number: u32) -> Option<u32>
    ensures { place_in result ≡ place_or number }
{
    if number == u32::MAX {
        None
    } else {
        Some(number)
    }
}

// Lent places, which change once a token and not with every byte.
#[derive(Clone, Copy)]
pub struct Places {
    // the tag's `<`, the entity's `&` or what is misspelt
    pub at: u32,
    // where the run of character data starts; its first byte that is not a blank
    pub start: u32,
    pub solid_at: Option<u32>,
    // the first foreign byte
    pub foreign_at: Option<u32>,
    // how many bytes fewer the characters of the run are, which changes at the end of an entity alone
    pub saved: u32,
}

impl Places {
    // Before the first byte.
    pub fn none() -> Places
        ensures { result ≡ no_places }
    {
        Places {
            at: 0,
            start: 0,
            solid_at: None,
            foreign_at: None,
            saved: 0,
        }
    }

    // Notes the place of a byte of the kind c, if it is the first foreign one.
    pub fn note_foreign(&mut self, place: usize, c: ByteKind)
        requires { place < no_place }
        ensures { self.new ≡ with_foreign c self.old place }
    {
        if c == ByteKind::Foreign && self.foreign_at.is_none() {
            self.foreign_at = Some(place as u32);
        }
    }
}

#[derive(Clone, Copy)]
pub struct Lex {
    // how many bytes are read
    pub place: usize,
    pub mode: Mode,
    // what may follow in an entity; between the two that every byte changes, so that these are not compiled into one word
    pub rest: EntityRest,
    pub event: Event,
    // how many bytes the name has so far
    pub count: u32,
    pub name: Name,
}

impl Lex {
    // Before the first byte.
    pub fn initial() -> Lex
        ensures { result ≡ initially }
    {
        Lex {
            place: 0,
            mode: Mode::Between,
            event: Event::Quiet,
            rest: EntityRest::All,
            count: 0,
            name: Name::empty(),
        }
    }

    // One byte more is read, which ends a token.
    pub fn tells(self, mode: Mode, event: Event) -> Lex
        requires { self.place < no_place }
        ensures { result ≡ stepped mode event self }
    {
        Lex {
            place: self.place + 1,
            mode,
            event,
            ..self
        }
    }

    // One byte more is read.
    pub fn goes(self, mode: Mode) -> Lex
        requires { self.place < no_place }
        ensures { result ≡ stepped mode Event.Quiet self }
    {
        self.tells(mode, Event::Quiet)
    }

    // One byte more of a name is read.
    pub fn names(self, mode: Mode, count: u32, name: Name) -> Lex
        requires { self.place < no_place }
        ensures { result ≡ named mode count name self }
    {
        Lex {
            place: self.place + 1,
            mode,
            event: Event::Quiet,
            count,
            name,
            ..self
        }
    }

    // One byte more of an entity is read, which may go on so.
    pub fn enters(self, rest: EntityRest) -> Lex
        requires { self.place < no_place }
        ensures { result ≡ entered rest self }
    {
        Lex {
            place: self.place + 1,
            mode: Mode::InEntity,
            event: Event::Quiet,
            rest,
            ..self
        }
    }

    // The same with another event.
    pub fn with_event(self, event: Event) -> Lex
        ensures { result ≡ with_event event self }
    {
        Lex { event, ..self }
    }
}

// One byte more, where nothing can follow.
pub fn stop(places: &mut Places, l: Lex, c: ByteKind) -> Lex
    requires { l.place < no_place }
    ensures { (result ≡ stepped Mode.Stopped Event.Quiet l) × (places.new ≡ with_foreign c places.old l.place) }
{
    places.note_foreign(l.place, c);
    l.goes(Mode::Stopped)
}
