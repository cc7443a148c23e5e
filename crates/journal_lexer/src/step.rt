// One byte of a journal, in any mode: each byte is handed once, in order, with its kind, the lexer's state and the lent places.
// The four stand side by side in each byte function: a struct of them is no plainer, since it would be made for one byte and taken apart at once.
ghost use Rattle.journal_lexer.specs.state.Relation.{Handed, Steps};

use crate::kinds::ByteKind;
use crate::state::{Lex, Mode, Places};
use crate::{character_data, tags};

// The byte b of the kind c.
pub fn step(places: &mut Places, l: Lex, b: u8, c: ByteKind) -> Lex
    requires { Handed l places.old b c }
    ensures { Steps l.mode l places.old b result places.new }
{
    match l.mode {
        Mode::Between => character_data::between_byte(places, l, b, c),
        Mode::Blanks => character_data::blanks_byte(places, l, b, c),
        Mode::Solid => character_data::solid_byte(places, l, b, c),
        Mode::AfterBracket => character_data::after_bracket_byte(places, l, b, c),
        Mode::AfterBrackets => character_data::after_brackets_byte(places, l, b, c),
        Mode::InEntity => character_data::entity_byte(places, l, b, c),
        Mode::Opened => tags::opened_byte(places, l, b, c),
        Mode::InName => tags::name_byte(places, l, b, c),
        Mode::AfterName => tags::after_name_byte(places, l, b, c),
        Mode::AfterSlash => tags::after_slash_byte(places, l, b, c),
        Mode::Ending => tags::ending_byte(places, l, b, c),
        Mode::InEndName => tags::end_name_byte(places, l, b, c),
        Mode::AfterEndName => tags::after_end_name_byte(places, l, b, c),
        Mode::Stopped => tags::stopped_byte(places, l, b, c),
    }
}
