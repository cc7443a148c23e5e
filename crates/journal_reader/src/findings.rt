// The end of a journal: the run of character data that the end makes whole, and the key of all that was found.
ghost use Rattle.std.specs.Prelude.{not, ◌≡◌, ◌<◌};
ghost use Rattle.journal_builder.specs.build_state.State.{PlacedIn};
ghost use Rattle.journal_lexer.specs.state.Places.{no_place};
ghost use Rattle.journal_reader.specs.findings.Endings.{is_cut, Ended};
ghost use Rattle.journal_reader.specs.findings.Findings.{found_key};
ghost use Rattle.text.specs.fault_keys.Keys.{place_limit};

use journal_builder::build_state::Build;
use journal_lexer::state::{Event, Lex, Mode, Places};
use text::fault_keys::noted;
use text::refusals::Reason;

// The event that the end of the text makes: a run of character data is whole.
pub fn ending(places: &mut Places, l: Lex) -> Lex
    requires { l.place < no_place }
    ensures { Ended l places.old result places.new }
{
    if l.mode.is_data() {
        places.at = l.place as u32;
        return l.with_event(Event::Runs);
    }
    l.with_event(Event::Quiet)
}

// Whether a tag or an entity is cut off or misspelt.
fn is_cut(mode: Mode) -> bool
    ensures { result ≡ is_cut mode }
{
    !matches!(
        mode,
        Mode::Between | Mode::Blanks | Mode::Solid | Mode::AfterBracket | Mode::AfterBrackets
    )
}

// The key of the first refusal of a text of n bytes that stands within its limit.
pub fn found_key(places: &Places, mode: Mode, m: Build, n: usize) -> u64
    requires { n < no_place }
    ensures { (result ≡ found_key places.now mode m n) × (places.now.at < place_limit) × PlacedIn places.now.foreign_at }
{
    let early = m.fault_at_end(n as u32);
    let misspelt = noted(early, is_cut(mode), Reason::Misspelt, places.at);
    match places.foreign_at {
        None => misspelt,
        Some(at) => noted(misspelt, true, Reason::BadByte, at),
    }
}
