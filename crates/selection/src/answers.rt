// The answer of selecting: what stands in lent cells. On refusal every cell is 0.
ghost use Rattle.std.specs.Prelude.{length};
ghost use Rattle.library_spec.specs.Selections.{Selections};
ghost use Rattle.selection.specs.answers.Answers.{RefusedBy, RefusedNumbers, Written, in_cells, AnsweredCells};

use text::refusals::{Reason, Refusal};

// How many items and counts are answered.
#[derive(Clone, Copy, Debug, PartialEq, Eq)]
pub struct Selected {
    pub items: usize,
    pub counts: usize,
}

// An answer as numbers: that of the refusal and its place, 0 and 0 for none, and how many items and counts are answered.
#[derive(Clone, Copy, Debug, PartialEq, Eq)]
pub struct SelectedNumbers {
    pub number: u64,
    pub place: u64,
    pub items: usize,
    pub counts: usize,
}

// A refusal by any number and place: every cell is cleared.
pub fn refused_by(number: u64, place: u64, items: &mut [u16], counts: &mut [u32]) -> SelectedNumbers
    ensures { RefusedNumbers number place (length items.old) (length counts.old) result items.new counts.new }
{
    items.fill(0);
    counts.fill(0);
    SelectedNumbers {
        number,
        place,
        items: 0,
        counts: 0,
    }
}

// A refusal: every cell is cleared.
pub fn refused(refusal: Refusal, items: &mut [u16], counts: &mut [u32]) -> Result<Selected, Refusal>
    ensures { RefusedBy refusal (length items.old) (length counts.old) result items.new counts.new }
{
    refused_by(refusal.reason.number(), refusal.place as u64, items, counts);
    Err(refusal)
}

// The answer of `n` items and `m` counts that are written as far as there is room; 18 where one of the outputs has too few cells.
pub fn in_room(
    n: usize,
    m: usize,
    items: &mut [u16],
    counts: &mut [u32],
) -> Result<Selected, Refusal>
    ensures { (a : Selections) → Written a n m items.old counts.old → AnsweredCells (λ i k. in_cells i k a) result items counts }
{
    if items.len() < n || counts.len() < m {
        return refused(Refusal::of(Reason::TooFewCells), items, counts);
    }
    Ok(Selected {
        items: n,
        counts: m,
    })
}
