// The open elements of an extract, the root's first.
ghost use Rattle.std.specs.Prelude.{◌≡◌};
ghost use Rattle.extract_reader.specs.levels.Levels.{level_in};

// Rows and numbers are below it.
const SPAN: u64 = 65536;

// An open element: its row, its number, the element.
#[derive(Clone, Copy)]
pub struct Level {
    pub row: u16,
    pub number: u16,
    pub element: u32,
}

impl Level {
    // One that stands in 64 bits: the row in the lowest 16, the number in the next 16, the element in the others.
    #[tactic(auto, unfolding(crate::specs::levels::Levels::row_in, crate::specs::levels::Levels::number_in, crate::specs::levels::Levels::element_in))]
    pub fn from_word(word: u64) -> Level
        ensures { result ≡ level_in word }
    {
        Level {
            row: (word % SPAN) as u16,
            number: (word / SPAN % SPAN) as u16,
            element: (word / SPAN / SPAN) as u32,
        }
    }
}
