// Selecting from an extract by two texts: 1 first (columns of unequal length, a place that the bundle does not have), then the texts in turn, 18
// last. On refusal every lent cell is 0.
#![tactic(auto)]

pub mod accepted;

ghost use Rattle.cells.specs.columns.Lent.{lent_columns};
ghost use Rattle.host_selecting.specs.Calls.{CallJudged};
ghost use Rattle.hosts.specs.results.Exits.{SelectingExits};
ghost use Rattle.library_spec.specs.Hosts.{select_from};

use crate::accepted::choose_under;
use cells::columns::ColumnsMut;
use hosts::results::HostResult;
use hosts::texts::{Texts, has_place, judge_texts};
use text::refusals::{Reason, Refusal};

// What is tested before the extract: the columns' lengths, the place, the schema, the bundle.
fn judge(schema: &[u8], bundle: &[u8], place: usize, columns: &ColumnsMut) -> Result<Texts, Refusal>
    ensures { CallJudged schema.now bundle.now place (lent_columns columns.now) result }
{
    let texts = judge_texts(schema, bundle);
    if !columns.are_equal() || !has_place(&texts, place) {
        return Err(Refusal::of(Reason::BadRecord));
    }
    texts
}

// The texts are compiled once, and the extract is read once for all paths that are asked for.
// Twelve parameters, each column one: `SelectingExits` speaks of six slices, as the C interface has them, and two exporting crates call it so.
pub fn select_from(
    schema: &[u8],
    bundle: &[u8],
    place: usize,
    extract: &[u8],
    numbers: &mut [u16],
    names: &mut [u8],
    parents: &mut [u16],
    starts: &mut [u32],
    lengths: &mut [u16],
    decoded: &mut [u16],
    items: &mut [u16],
    counts: &mut [u32],
) -> HostResult
    ensures { SelectingExits (select_from schema.now bundle.now place extract.now) result numbers names parents starts lengths decoded items counts }
{
    let mut columns = ColumnsMut {
        numbers,
        names,
        parents,
        starts,
        lengths,
        decoded,
    };
    match judge(schema, bundle, place, &columns) {
        Ok(texts) => HostResult::from(choose_under(
            &texts,
            place,
            extract,
            &mut columns,
            items,
            counts,
        )),
        Err(refusal) => {
            columns.clear();
            items.fill(0);
            counts.fill(0);
            HostResult::from(Err(refusal))
        }
    }
}
