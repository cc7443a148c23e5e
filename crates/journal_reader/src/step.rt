// One byte of a journal, read: request R-4's step. It has the byte and its kind, the compiled schema, a state of fixed size, the lent cells and
// rows, but not the journal.
ghost use Rattle.std.specs.Prelude.{◌≤◌};
ghost use Rattle.cells.specs.columns.Lent.{lent_columns};
ghost use Rattle.journal_reader.specs.rows.Kept.{Kept};
ghost use Rattle.journal_builder.specs.journal_schema.Entries.{Sized};
ghost use Rattle.journal_lexer.specs.state.Relation.{Handed};
ghost use Rattle.journal_reader.specs.state.Reading.{Usable};
ghost use Rattle.journal_reader.specs.step.Steps.{ByteRead};
ghost use Rattle.text_spec.specs.Limits.{max_declarations};

use crate::event_rows;
use crate::state::ReaderState;
use cells::columns::ColumnsMut;
use journal_builder::journal_schema::JournalSchema;
use journal_builder::open_levels::{LEVELS, Level};
use journal_lexer::kinds::ByteKind;
use journal_lexer::state::Places;
use journal_lexer::step;

// The byte b of the kind c. The levels, the columns and the places stand apart, since the builder, `rows` and the lexer each change one of them; of
// a struct of three `&mut` each contract would have to say that they are the same at exit, as `Kept` does of the columns.
pub fn read_byte(
    schema: &JournalSchema,
    levels: &mut [Level; LEVELS],
    columns: &mut ColumnsMut,
    places: &mut Places,
    x: ReaderState,
    b: u8,
    c: ByteKind,
) -> ReaderState
    requires usable { Usable places.old (lent_columns columns.old) x }
    requires handed { Handed x.lex places.old b c }
    requires sized { Sized schema.now.compiled.now }
    requires few { schema.now.names.count ≤ max_declarations }
    ensures same { Kept columns.old columns.new }
    ensures read { ByteRead schema.now levels.old places.old (lent_columns columns.old) x b levels.new places.new (lent_columns columns.new) result }
{
    let lex = step::step(places, x.lex, b, c);
    let build = event_rows::read_event(schema, levels, columns, places, lex, x.build);
    ReaderState { lex, build }
}
