// The six columns of a table as one value, lent to be read or to be written: rows put one after the other, as far as the columns have room, and
// past them zeros.
ghost use Rattle.std.specs.Prelude.{[], ◌≡◌, ◌≤◌, length};
ghost use Rattle.cells.specs.columns.Columns.{EqualColumns, cells, with_row};
ghost use Rattle.cells.specs.columns.Lent.{read_columns, lent_columns, Same, Left};
ghost use Rattle.cells.specs.lent.Columns.{ClearedFrom, first_cells};
ghost use Rattle.table_spec.specs.Columns.{columns_of, sizes_of, equal_sizes};

use crate::lent::fill_from;
use text::limits::MAX_NODES;

// A row, but for its number, as the columns' cells hold it: the code of its name, its parent's row, the start of its text and
// its lengths, raw and decoded.
#[derive(Clone, Copy)]
pub struct RowCells {
    pub name: u8,
    pub parent: u16,
    pub start: u32,
    pub size: u16,
    pub decoded: u16,
}

// Every number of a row is below it.
pub const ROW_LIMIT: usize = MAX_NODES + 1;

// Columns that are read.
#[derive(Clone, Copy)]
pub struct Columns<'a> {
    pub numbers: &'a [u16],
    pub names: &'a [u8],
    pub parents: &'a [u16],
    pub starts: &'a [u32],
    pub lengths: &'a [u16],
    pub decoded: &'a [u16],
}

impl<'a> Columns<'a> {
    // Whether all have as many cells.
    pub fn are_equal(&self) -> bool
        ensures { result ≡ equal_sizes (sizes_of (read_columns self.now)) }
    {
        let size = self.numbers.len();
        self.names.len() == size
            && self.parents.len() == size
            && self.starts.len() == size
            && self.lengths.len() == size
            && self.decoded.len() == size
    }

    // The first `count` rows.
    pub fn first(&self, count: usize) -> Columns<'a>
        requires equal { EqualColumns (read_columns self.now) }
        requires room { count ≤ length self.now.numbers.now }
        ensures { read_columns result ≡ first_cells count (read_columns self.now) }
    {
        Columns {
            numbers: &self.numbers[..count],
            names: &self.names[..count],
            parents: &self.parents[..count],
            starts: &self.starts[..count],
            lengths: &self.lengths[..count],
            decoded: &self.decoded[..count],
        }
    }
}

// Columns that are written.
#[derive(Drop)]
pub struct ColumnsMut<'a> {
    pub numbers: &'a mut [u16],
    pub names: &'a mut [u8],
    pub parents: &'a mut [u16],
    pub starts: &'a mut [u32],
    pub lengths: &'a mut [u16],
    pub decoded: &'a mut [u16],
}

impl<'a> ColumnsMut<'a> {
    // The same, to be read.
    pub fn as_columns(&self) -> Columns<'_>
        ensures { read_columns result ≡ lent_columns self.now }
    {
        Columns {
            numbers: &self.numbers[..],
            names: &self.names[..],
            parents: &self.parents[..],
            starts: &self.starts[..],
            lengths: &self.lengths[..],
            decoded: &self.decoded[..],
        }
    }

    // How many rows they have room for.
    pub fn room(&self) -> usize
        ensures { result ≡ length self.now.numbers.now }
    {
        self.numbers.len()
    }

    // Whether all have as many cells.
    pub fn are_equal(&self) -> bool
        ensures { result ≡ equal_sizes (sizes_of (lent_columns self.now)) }
    {
        self.as_columns().are_equal()
    }

    // Puts the row r, if the columns have room for it.
    pub fn put_row(&mut self, r: usize, row: RowCells)
        requires { EqualColumns (lent_columns self.old) }
        ensures { Left self.old self.new (with_row (lent_columns self.old) r (cells r row)) }
    {
        if r < self.numbers.len() {
            self.numbers[r] = (r % ROW_LIMIT) as u16;
            self.names[r] = row.name;
            self.parents[r] = row.parent;
            self.starts[r] = row.start;
            self.lengths[r] = row.size;
            self.decoded[r] = row.decoded;
        }
    }

    // The rows from n on are cleared.
    pub fn clear_from(&mut self, n: usize)
        ensures same { Same self.old self.new }
        ensures cleared { ClearedFrom (lent_columns self.old) n (lent_columns self.new) }
    {
        fill_from(self.numbers, n, 0);
        fill_from(self.names, n, 0);
        fill_from(self.parents, n, 0);
        fill_from(self.starts, n, 0);
        fill_from(self.lengths, n, 0);
        fill_from(self.decoded, n, 0);
    }

    // No row is left in the columns.
    pub fn clear(&mut self)
        ensures { Left self.old self.new (columns_of (sizes_of (lent_columns self.old)) []) }
    {
        self.clear_from(0);
    }
}
