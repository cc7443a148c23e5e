// The chain of tags of a row of a table that is handed in under a schema's text, in lent bytes.
ghost use Rattle.std.specs.Prelude.{◌≡◌};
ghost use Rattle.cells.specs.verdicts.Verdicts.{AnsweredSlice};
ghost use Rattle.chains.specs.handed.Answers.{chain_held};
ghost use Rattle.schema_spec.specs.Reading.{read_schema};
ghost use Rattle.schema_spec.specs.Records.{schema_in};
ghost use Rattle.tables.specs.Handed.{read_table};
ghost use Rattle.text_spec.specs.Refusals.{accepted};

use crate::lent::put_chain;
use crate::tags::ElementNames;
use cells::columns::Columns;
use compiled_schema::compile;
use names::MAX_ELEMENTS;
use tables::is_table;
use text::refusals::{Reason, Refusal};

// The chain of a row of any table at any position, with their tests first. The schema's text is one that is accepted.
pub fn chain_lent(
    text: &[u8],
    table: &Columns,
    count: usize,
    position: usize,
    out: &mut [u8],
) -> Result<usize, Refusal>
    requires { read_schema text.now ≡ accepted (schema_in text.now) }
    ensures { AnsweredSlice (chain_held (schema_in text.now) (read_table table.now count) position) result out }
{
    let compiled = compile(text);
    let words = compiled.held_words();
    if !is_table(table, count, &words) || count <= position {
        out.fill(0);
        return Err(Refusal::of(Reason::BadRecord));
    }
    let mut sizes = [0usize; MAX_ELEMENTS];
    let names = ElementNames::of(text, &compiled.names, &mut sizes);
    put_chain(&names, &table.first(count), position, out)
}
