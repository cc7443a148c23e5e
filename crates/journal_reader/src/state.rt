// What reading a journal has come to, by value: the lexer's state and the builder's. Beside it the places, the open elements and the columns
// are lent.
ghost use Rattle.std.specs.Prelude.{◌≡◌};
ghost use Rattle.journal_reader.specs.state.Reading.{started};

use journal_builder::build_state::Build;
use journal_lexer::state::Lex;

#[derive(Drop)]
pub struct ReaderState {
    pub lex: Lex,
    pub build: Build,
}

impl ReaderState {
    // Before the first byte.
    pub fn start() -> ReaderState
        ensures { result ≡ started }
    {
        ReaderState {
            lex: Lex::initial(),
            build: Build::initial(),
        }
    }
}
