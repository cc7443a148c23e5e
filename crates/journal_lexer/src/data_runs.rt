// Where a run of a journal's character data begins, and where it ends: at `<`, at `&` and at `]]>`.
ghost use Rattle.std.proofs.Math.Option.{none};
ghost use Rattle.std.specs.Prelude.{◌≡◌, ◌<◌};
ghost use Rattle.journal_lexer.specs.kinds.Kinds.{data_by};
ghost use Rattle.journal_lexer.specs.state.Places.{no_place, with_tag, with_saved};
ghost use Rattle.journal_lexer.specs.state.Relation.{stepped, entered, Handed, Meant};
ghost use Rattle.token_spec.specs.Lexer.{run, goes};

use crate::entities::EntityRest;
use crate::kinds::ByteKind;
use crate::state::{Event, Lex, Mode, Places};

// A `<`.
pub fn tag_opens(places: &mut Places, l: Lex, event: Event) -> Lex
    requires { l.place < no_place }
    ensures { (result ≡ stepped Mode.Opened event l) × (places.new ≡ with_tag places.old l.place) }
{
    places.at = l.place as u32;
    l.tells(Mode::Opened, event)
}

// An `&`.
pub fn entity_begins(places: &mut Places, l: Lex) -> Lex
    requires { l.place < no_place }
    ensures { (result ≡ entered EntityRest.All l) × (places.new ≡ with_tag places.old l.place) }
{
    places.at = l.place as u32;
    l.enters(EntityRest::All)
}

// The last byte of an entity, which stands for one character. That less is saved than was read before its `&` is always so: the tests keep the sum
// within 32 bits.
pub fn entity_ends(places: &mut Places, place: usize)
    requires { place < no_place }
    ensures { places.new ≡ with_saved places.old place }
{
    let here = place as u32;
    if places.saved <= places.at && places.at <= here {
        places.saved += here - places.at;
    }
}

// A byte of character data that is not `<`, where the run, from `start`, has only blanks so far.
pub fn data_byte(places: &mut Places, l: Lex, start: u32, b: u8, c: ByteKind) -> Lex
    requires { Handed l places.old b c }
    ensures { Meant l places.old b result places.new (goes (data_by (run start none places.old.saved) 0 l.place c)) }
{
    places.start = start;
    if c == ByteKind::Blank {
        places.solid_at = None;
        return l.goes(Mode::Blanks);
    }
    places.solid_at = Some(l.place as u32);
    match c {
        ByteKind::Ampersand => entity_begins(places, l),
        ByteKind::Bracket => l.goes(Mode::AfterBracket),
        _ => {
            places.note_foreign(l.place, c);
            l.goes(Mode::Solid)
        }
    }
}
