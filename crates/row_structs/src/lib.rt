// Rows as structs, and the columns that a table of them has inside the library.
#![tactic(auto)]

ghost use Rattle.std.specs.Prelude.{◌≡◌};
ghost use Rattle.cells.specs.columns.Lent.{read_columns};
ghost use Rattle.row_structs.specs.Structs.{cell_count, columns_in, empty_columns};
ghost use Rattle.table_spec.specs.Columns.{all_of_size, sizes_of};

use cells::columns::Columns;
use text::limits;

// How many rows a table has at most.
pub const MAX_ROWS: usize = limits::MAX_NODES;
// How many cells a column has: one for each row, and one for the rows past those, of which no table has any.
pub const CELLS: usize = MAX_ROWS + 1;

// One row, its name by its code.
#[repr(C)]
#[derive(Clone, Copy)]
pub struct Row {
    pub number: u16,
    pub name: u8,
    pub parent: u16,
    pub start: u32,
    pub size: u16,
    pub decoded: u16,
}

// The columns of a table.
// Six arrays and none of rows: they are lent as columns.
#[derive(Drop)]
pub struct RowColumns {
    pub numbers: [u16; CELLS],
    pub names: [u8; CELLS],
    pub parents: [u16; CELLS],
    pub starts: [u32; CELLS],
    pub lengths: [u16; CELLS],
    pub decoded: [u16; CELLS],
}

impl RowColumns {
    // Every cell is 0.
    pub fn empty() -> RowColumns
        ensures { columns_in result ≡ empty_columns }
    {
        RowColumns {
            numbers: [0; CELLS],
            names: [0; CELLS],
            parents: [0; CELLS],
            starts: [0; CELLS],
            lengths: [0; CELLS],
            decoded: [0; CELLS],
        }
    }

    // The same, to be read: a cell for each row.
    pub fn as_columns(&self) -> Columns<'_>
        ensures value { read_columns result ≡ columns_in self.now }
        ensures sizes { sizes_of (columns_in self.now) ≡ all_of_size cell_count }
    {
        Columns {
            numbers: &self.numbers[..],
            names: &self.names[..],
            parents: &self.parents[..],
            starts: &self.starts[..],
            lengths: &self.lengths[..],
            decoded: &self.decoded[..],
        }
    }
}
