// The rows of a table that a set of names keeps: those whose names and whose ancestors' names are all in the set.
#![tactic(auto)]

pub mod columns;
pub mod cut_rows;

ghost use Rattle.std.specs.Prelude.{◌≡◌, ◌<◌};
ghost use Rattle.cells.specs.row_sets.Columns.{marks};
ghost use Rattle.kept_rows.specs.Kept.{code_count, in_set, kept_marks, KeptPass};
ghost use Rattle.kept_rows.specs.Positions.{next_position, Numbered};
ghost use Rattle.text_spec.specs.Limits.{max_nodes};

use cells::row_sets::{MARKED, UNMARKED};
use names::NameSet;
use names::codes::{CODES, has};

// The position of a row that is not kept; kept rows are counted from 1.
// A number and no Option: a cell of the column has two bytes, an `Option<u16>` four.
pub const NOT_KEPT: u16 = 0;

// A mark for each code: whether its name is in the set.
fn code_marks(set: NameSet) -> [u8; CODES]
    ensures { result ≡ marks code_count (in_set set) }
{
    let mut table = [UNMARKED; CODES];
    for c in 0..CODES {
        table[c] = u8::from(has(set, c));
    }
    table
}

// Marks the rows that the set keeps: one pass, since a parent's row stands before the row.
pub fn mark_kept(set: NameSet, names: &[u8], parents: &[u16], kept: &mut [u8])
    requires { KeptPass names.now parents.now kept.old }
    ensures { kept.new ≡ kept_marks (in_set set) names.now parents.now }
{
    let table = code_marks(set);
    if kept.is_empty() {
        return;
    }
    kept[0] = table[names[0] as usize];
    for r in 1..kept.len() {
        kept[r] = table[names[r] as usize] & kept[parents[r] as usize];
    }
}

// The position after `n`, if the row's name is in the set and the row above is kept.
#[tactic(auto, unfolding(crate::specs::Positions::next_position))]
fn next_position(named: u8, above: u16, n: u16) -> u16
    requires { n < max_nodes }
    ensures { result ≡ next_position named above n }
{
    if named == MARKED && above != NOT_KEPT {
        n + 1
    } else {
        NOT_KEPT
    }
}

// Writes the position of each row among the rows that the set keeps, and gives how many these are: one pass.
pub fn number_kept(set: NameSet, names: &[u8], parents: &[u16], positions: &mut [u16]) -> u16
    requires { KeptPass names.now parents.now positions.old }
    ensures { Numbered (kept_marks (in_set set) names.now parents.now) result positions.new }
{
    let table = code_marks(set);
    if positions.is_empty() {
        return 0;
    }
    let mut n = u16::from(table[names[0] as usize]);
    positions[0] = n;
    for r in 1..positions.len() {
        let x = next_position(table[names[r] as usize], positions[parents[r] as usize], n);
        positions[r] = x;
        n = n.max(x);
    }
    n
}
