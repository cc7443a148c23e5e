// Lent cells of any width: filled from one on, and written where they are there.
ghost use Rattle.std.specs.Prelude.{◌≡◌};
ghost use Rattle.cells.specs.lent.Appended.{written};
ghost use Rattle.cells.specs.lent.Cells.{FilledFrom};

use text::scanning::note;

// Fills the cells from the cell `n` on; all before it stay.
pub fn fill_from<T: Copy>(out: &mut [T], n: usize, value: T)
    ensures { FilledFrom value out.old n out.new }
{
    for i in n..out.len() {
        out[i] = value;
    }
}

// Writes the cell `n`, if it is there.
pub fn put<T: Copy>(out: &mut [T], n: usize, value: T)
    ensures { out.new ≡ written out.old n value }
{
    note(out, n, value);
}
