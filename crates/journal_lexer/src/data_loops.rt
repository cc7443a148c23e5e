// Reading on in a journal's character data: a loop for each mode that lasts, whole entities and plain bytes passed at once.
ghost use Rattle.std.specs.Prelude.{◌≡◌, ◌≤◌, length};
ghost use Rattle.journal_lexer.specs.data_loops.Modes.{DataMode};
ghost use Rattle.journal_lexer.specs.data_loops.Characters.{PlainBytes, EntityEnd};
ghost use Rattle.journal_lexer.specs.loop_laws.Advance.{Ready, Advance, never, only};

use crate::character_data;
use crate::data_runs::entity_ends;
use crate::entities::EntityRest;
use crate::kinds::ByteKind;
use crate::mode_loops::{mode_run, mode_step};
use crate::state::{Event, Lex, Mode, Places};
use crate::whole_entities::entity_at;

// Passes an entity whose `&` alone is read, if it stands whole there.
fn whole_entity(t: &[u8], kinds: &[ByteKind; 256], places: &mut Places, l: Lex) -> Lex
    requires { Ready t.now kinds.now l places.old }
    ensures { Advance never t.now l places.old result places.new }
{
    if l.mode != Mode::InEntity || l.event != Event::Quiet || l.rest != EntityRest::All {
        return l;
    }
    let Some(c) = entity_at(t, l.place) else {
        return l;
    };
    entity_ends(places, c.next - 1);
    Lex {
        place: c.next,
        mode: Mode::Solid,
        event: Event::Quiet,
        ..l
    }
}

// An entity: at once where it stands whole, else its bytes one at a time.
pub fn entity_run(t: &[u8], kinds: &[ByteKind; 256], places: &mut Places, l: Lex) -> Lex
    requires { Ready t.now kinds.now l places.old }
    ensures { Advance (only Mode.InEntity) t.now l places.old result places.new }
{
    let whole = whole_entity(t, kinds, places, l);
    mode_run(
        t,
        kinds,
        places,
        whole,
        Mode::InEntity,
        character_data::entity_byte,
    )
}

// The place of the first byte from `from` on that is no plain one. Compiled in place, the loop has two instructions a byte more, of nine, and takes a fourth longer.
#[inline(never)]
fn plain_end(t: &[u8], kinds: &[ByteKind; 256], from: usize) -> usize
    requires { from ≤ length t.now }
    ensures { PlainBytes t.now kinds.now from result }
{
    for at in from..t.len() {
        if !kinds[t[at] as usize].is_plain() {
            return at;
        }
    }
    t.len()
}

// The same, with no call where an `&` stands there.
fn plain_from(t: &[u8], kinds: &[ByteKind; 256], from: usize) -> usize
    requires { from ≤ length t.now }
    ensures { PlainBytes t.now kinds.now from result }
{
    if from < t.len() && t[from] == b'&' {
        return from;
    }
    plain_end(t, kinds, from)
}

// The place past the entity that stands at `at`, if one does.
fn entity_end(t: &[u8], at: usize) -> Option<usize>
    ensures { EntityEnd t.now at result }
{
    if t.len() <= at || t[at] != b'&' {
        return None;
    }
    let c = entity_at(t, at + 1)?;
    Some(c.next)
}

// Passes the characters of a run that has a byte that is not a blank, up to a byte that is no plain one and begins no entity.
// A `while let`: each turn passes a whole entity and the plain bytes after it.
pub fn characters_run(t: &[u8], kinds: &[ByteKind; 256], places: &mut Places, l: Lex) -> Lex
    requires { Ready t.now kinds.now l places.old }
    ensures { Advance never t.now l places.old result places.new }
{
    if l.mode != Mode::Solid || l.event != Event::Quiet {
        return l;
    }
    let mut saved = places.saved as usize;
    let mut at = plain_end(t, kinds, l.place);
    while let Some(next) = entity_end(t, at) {
        saved += next - at - 1;
        at = plain_from(t, kinds, next);
    }
    places.saved = saved as u32;
    Lex { place: at, ..l }
}

// An entity whose `&` is read, and what comes after it.
fn entity_part(t: &[u8], kinds: &[ByteKind; 256], places: &mut Places, l: Lex) -> Lex
    requires { Ready t.now kinds.now l places.old }
    ensures { Advance (only Mode.InEntity) t.now l places.old result places.new }
{
    let entity = entity_run(t, kinds, places, l);
    let characters = characters_run(t, kinds, places, entity);
    mode_run(
        t,
        kinds,
        places,
        characters,
        Mode::Solid,
        character_data::solid_byte,
    )
}

// Reads on in character data, up to an event, another mode or the end.
pub fn data_part(t: &[u8], kinds: &[ByteKind; 256], places: &mut Places, l: Lex) -> Lex
    requires { Ready t.now kinds.now l places.old × (l.event ≡ Event.Quiet) }
    ensures { Advance DataMode t.now l places.old result places.new }
{
    let between = mode_step(
        t,
        kinds,
        places,
        l,
        Mode::Between,
        character_data::between_byte,
    );
    let blanks = mode_run(
        t,
        kinds,
        places,
        between,
        Mode::Blanks,
        character_data::blanks_byte,
    );
    let solid = mode_run(
        t,
        kinds,
        places,
        blanks,
        Mode::Solid,
        character_data::solid_byte,
    );
    if solid.mode == Mode::InEntity {
        return entity_part(t, kinds, places, solid);
    }
    solid
}
