// The answers of cutting.
ghost use Rattle.std.specs.Prelude.{Ok, Err, cond, ◌≡◌, ltb};
ghost use Rattle.cut_table.specs.laws.Answers.{RefusedColumns};
ghost use Rattle.text.specs.declared.refusals.Reason.TheVariants.{TooFewCells};
ghost use Rattle.text.specs.refusals.Refusals.{refusal};

use cells::columns::ColumnsMut;
use text::refusals::{Reason, Refusal};

// Refusal 1, and no row in the columns.
pub fn refuse(out: &mut ColumnsMut) -> Result<usize, Refusal>
    ensures { RefusedColumns result out.old out.new }
{
    out.clear();
    Err(Refusal::of(Reason::BadRecord))
}

// The answer of so many rows in room for so many; 18 where that is too little.
pub fn answer_in(room: usize, n: usize) -> Result<usize, Refusal>
    ensures { result ≡ cond (ltb room n) (Err (refusal TooFewCells 0)) (Ok n) }
{
    if room < n {
        return Err(Refusal::of(Reason::TooFewCells));
    }
    Ok(n)
}
