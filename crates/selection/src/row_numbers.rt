// The numbers of marked rows, written one after the other into lent cells.
ghost use Rattle.std.specs.Prelude.{◌≡◌};
ghost use Rattle.cells.specs.lent.Appended.{Appended};
ghost use Rattle.cells.specs.row_sets.Columns.{picked};
ghost use Rattle.selection.specs.row_numbers.Cells.{AppendPass, RoomPass};

use cells::lent::put;

// Writes the numbers of the marked rows where there is room for all rows. A loop beside the checked one: no cell has to be looked for.
fn append_in_room(numbers: &[u16], marks: &[u8], out: &mut [u16], at: usize) -> usize
    requires { RoomPass numbers.now marks.now out.old at }
    ensures { Appended out.old at (picked marks.now numbers.now) result out.new }
{
    let mut n = at;
    for (r, mark) in marks.iter().enumerate() {
        out[n] = numbers[r];
        n += usize::from(*mark);
    }
    n
}

// The same, as far as there is room.
fn append_checked(numbers: &[u16], marks: &[u8], out: &mut [u16], at: usize) -> usize
    requires { AppendPass numbers.now marks.now at }
    ensures { Appended out.old at (picked marks.now numbers.now) result out.new }
{
    let mut n = at;
    for (r, mark) in marks.iter().enumerate() {
        put(out, n, numbers[r]);
        n += usize::from(*mark);
    }
    n
}

// Writes the numbers of the marked rows into the cells from `at` on, as far as there is room, and gives the cell past them.
pub fn append(numbers: &[u16], marks: &[u8], out: &mut [u16], at: usize) -> usize
    requires { AppendPass numbers.now marks.now at }
    ensures { Appended out.old at (picked marks.now numbers.now) result out.new }
{
    if at + marks.len() <= out.len() {
        return append_in_room(numbers, marks, out, at);
    }
    append_checked(numbers, marks, out, at)
}
