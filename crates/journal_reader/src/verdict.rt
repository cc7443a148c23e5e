// What is answered to a journal: the first refusal that was found, 18 last.
ghost use Rattle.std.specs.Prelude.{List, ◌≡◌, length};
ghost use Rattle.cells.specs.verdicts.Verdicts.{verdict};
ghost use Rattle.journal_lexer.specs.run_laws.Findings.{KeyTells};
ghost use Rattle.journal_reader.specs.verdict.Verdicts.{in_rows};
ghost use Rattle.table_spec.specs.Rows.{Row};
ghost use Rattle.text.specs.fault_keys.Keys.{no_key};
ghost use Rattle.text_spec.specs.Refusals.{Outcome};

use text::fault_keys;
use text::refusals::{Reason, Refusal};

// The answer by the key of the first refusal and by how many rows there are.
pub fn answer_of(key: u64, rows: usize) -> Result<usize, Refusal>
    ensures { (all : List Row) (o : Outcome (List Row)) → KeyTells key all o → (key ≡ no_key → rows ≡ length all) → result ≡ verdict o }
{
    match fault_keys::refusal_in(key) {
        Some(first) => Err(first),
        None => Ok(rows),
    }
}

// The same in columns of so many cells.
pub fn in_room(read: Result<usize, Refusal>, room: usize) -> Result<usize, Refusal>
    ensures { result ≡ in_rows read room }
{
    let rows = read?;
    if room < rows {
        return Err(Refusal::of(Reason::TooFewCells));
    }
    Ok(rows)
}
