// Making an extract under an accepted schema and bundle, both compiled: the journal's rows in the lent columns, and the bytes of those that the
// bundle needs.
ghost use Rattle.std.specs.Prelude.{◌≤◌};
ghost use Rattle.cells.specs.columns.Lent.{Same, lent_columns};
ghost use Rattle.compiled_paths.specs.Paths.{Shaped, paths_in};
ghost use Rattle.host_making.specs.accepted.Making.{FirstAsked, UnderTexts, WrittenUnder, made_in};
ghost use Rattle.hosts.specs.results.Settled.{MakingSettled};
ghost use Rattle.schema_spec.specs.Records.{schema_in};
ghost use Rattle.text_spec.specs.Limits.{max_declarations};

use cells::columns::ColumnsMut;
use extract_writer::writing::write_kept;
use hosts::results::Answered;
use hosts::texts::Texts;
use journal::compiled::read_compiled;
use needed_names::sets::needed_under;
use text::limits::MAX_JOURNAL_BYTES;
use text::refusals::{Reason, Refusal};

// Writes the extract of the first rows in the columns; no row is left in them where `out` has too few cells (18).
fn write_under(
    texts: &Texts,
    journal: &[u8],
    rows: usize,
    columns: &mut ColumnsMut,
    out: &mut [u8],
) -> Result<Answered, Refusal>
    requires { Shaped texts.now.paths × (texts.now.schema.relations.count ≤ max_declarations) × FirstAsked journal.now (lent_columns columns.old) rows }
    ensures same { Same columns.old columns.new }
    ensures written { WrittenUnder texts.now journal.now rows (lent_columns columns.old) (lent_columns columns.new) out.old out.new result }
{
    let needed = needed_under(&texts.schema, &texts.paths);
    let bytes = write_kept(needed, journal, &columns.as_columns().first(rows), out);
    if out.len() < bytes {
        columns.clear();
        return Err(Refusal::of(Reason::TooFewCells));
    }
    Ok(Answered {
        rows,
        items: bytes,
        counts: 0,
    })
}

// The journal's rows in the columns, and then the bytes; on refusal no cell is left. The schema's text is the one that was compiled.
pub fn make_under(
    schema: &[u8],
    texts: &Texts,
    journal: &[u8],
    columns: &mut ColumnsMut,
    out: &mut [u8],
) -> Result<Answered, Refusal>
    requires { UnderTexts schema.now texts.now (lent_columns columns.old) }
    ensures same { Same columns.old columns.new }
    ensures made { MakingSettled (made_in (schema_in schema.now) (paths_in texts.now.paths) journal.now) (lent_columns columns.old) out.old result (lent_columns columns.new) out.new }
{
    match read_compiled(schema, &texts.schema, journal, MAX_JOURNAL_BYTES, columns) {
        Ok(rows) => write_under(texts, journal, rows, columns, out),
        Err(refusal) => {
            out.fill(0);
            Err(refusal)
        }
    }
}
