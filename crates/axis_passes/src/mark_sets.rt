// Columns of marks as sets of rows: set operations, and a filter by a range of codes.
ghost use Rattle.std.specs.Prelude.{◌&&◌, ◌≡◌, leb, length};
ghost use Rattle.cells.specs.row_sets.Columns.{is_marked, union, intersection};
ghost use Rattle.selection_laws.specs.marks.Passes.{SameLength, FilterPass, range_marks};
ghost use Rattle.text_spec.specs.Lists.{any_below};

use cells::row_sets::MARKED;

// Some row is marked.
pub fn any_marked(marks: &[u8]) -> bool
    ensures { result ≡ any_below (length marks.now) (is_marked marks.now) }
{
    marks.contains(&MARKED)
}

// The rows of either column.
// A loop of one line here and in `intersect`: a closure for the operator is no plainer.
pub fn unite(from: &[u8], out: &mut [u8])
    requires { SameLength from.now out.old }
    ensures { out.new ≡ union out.old from.now }
{
    for (r, mark) in from.iter().enumerate() {
        out[r] |= *mark;
    }
}

// The rows of both columns.
pub fn intersect(from: &[u8], out: &mut [u8])
    requires { SameLength from.now out.old }
    ensures { out.new ≡ intersection out.old from.now }
{
    for (r, mark) in from.iter().enumerate() {
        out[r] &= *mark;
    }
}

// The code is from `low` to `high`.
fn in_range(code: u8, low: u8, high: u8) -> bool
    ensures { result ≡ (leb low code && leb code high) }
{
    low <= code && code <= high
}

// The marked rows whose codes are from `low` to `high`.
pub fn filter(codes: &[u8], low: u8, high: u8, from: &[u8], out: &mut [u8])
    requires { FilterPass codes.now from.now out.old }
    ensures { out.new ≡ intersection from.now (range_marks low high codes.now) }
{
    for (r, code) in codes.iter().enumerate() {
        out[r] = from[r] & u8::from(in_range(*code, low, high));
    }
}
