// The open elements in lent cells, level by level. Level 0 stands for what is outside the root; nothing is asked of it.
ghost use Rattle.std.specs.Prelude.{◌≡◌};
ghost use Rattle.journal_builder.specs.open_levels.Levels.{no_level};

use crate::fillings::Filling;
use text::limits::MAX_DEPTH;
use text::name_words::Name;

pub const LEVELS: usize = MAX_DEPTH + 1;

// An open element: its name, the place of its start tag, its row, its content so far.
#[derive(Clone, Copy)]
pub struct Level {
    pub name: Name,
    pub place: u32,
    pub row: usize,
    pub filling: Filling,
}

impl Level {
    // No open element: each level before the first event.
    pub fn none() -> Level
        ensures { result ≡ no_level }
    {
        Level {
            name: Name::empty(),
            place: 0,
            row: 0,
            filling: Filling::Unjudged,
        }
    }
}
