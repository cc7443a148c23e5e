// Making an extract of three texts: columns of one length first (1), then the texts in turn, 18 last. On refusal every lent cell is 0.
#![tactic(auto)]

pub mod accepted;

ghost use Rattle.cells.specs.columns.Lent.{lent_columns};
ghost use Rattle.host_making.specs.Calls.{CallJudged};
ghost use Rattle.hosts.specs.results.Exits.{MakingExits};
ghost use Rattle.library_spec.specs.Hosts.{make_extract};

use crate::accepted::make_under;
use cells::columns::ColumnsMut;
use hosts::results::HostResult;
use hosts::texts::{Texts, judge_texts};
use text::refusals::{Reason, Refusal};

// What is tested before the journal: the columns' lengths, the schema, the bundle.
fn judge(schema: &[u8], bundle: &[u8], columns: &ColumnsMut) -> Result<Texts, Refusal>
    ensures { CallJudged schema.now bundle.now (lent_columns columns.now) result }
{
    if !columns.are_equal() {
        return Err(Refusal::of(Reason::BadRecord));
    }
    judge_texts(schema, bundle)
}

// The texts are compiled once, and the journal is read once.
// Ten parameters, each column one: `MakingExits` speaks of six slices, as the C interface has them, and two exporting crates call it so.
pub fn make_extract(
    schema: &[u8],
    bundle: &[u8],
    journal: &[u8],
    numbers: &mut [u16],
    names: &mut [u8],
    parents: &mut [u16],
    starts: &mut [u32],
    lengths: &mut [u16],
    decoded: &mut [u16],
    out: &mut [u8],
) -> HostResult
    ensures { MakingExits (make_extract schema.now bundle.now journal.now) result numbers names parents starts lengths decoded out }
{
    let mut columns = ColumnsMut {
        numbers,
        names,
        parents,
        starts,
        lengths,
        decoded,
    };
    match judge(schema, bundle, &columns) {
        Ok(texts) => HostResult::from(make_under(schema, &texts, journal, &mut columns, out)),
        Err(refusal) => {
            columns.clear();
            out.fill(0);
            HostResult::from(Err(refusal))
        }
    }
}
