// One pass over columns of marks for siblings after and before a marked row, and the axes following and preceding, which are made of it.
// In a pass the cell of a parent says whether a marked child of it was passed.
ghost use Rattle.std.specs.Prelude.{◌≡◌};
ghost use Rattle.path_spec.specs.Paths.{following, preceding};
ghost use Rattle.selection_laws.specs.marks.Passes.{AxisPass};
ghost use Rattle.selection_laws.specs.marks.Selection.{written_marks};
ghost use Rattle.selection_laws.specs.marks.Siblings.{following_sibling_marks, preceding_sibling_marks};

use crate::downward::descendants_or_self;
use crate::upward::ancestors_or_self;
use cells::row_sets::UNMARKED;

// `from` is used up: a row that is passed needs its own mark no more, and its cell says whether a marked child of it was passed.
pub fn following_siblings(parents: &[u16], from: &mut [u8], out: &mut [u8])
    requires { AxisPass parents.now from.old out.old }
    ensures { out.new ≡ following_sibling_marks parents.now from.old }
{
    from[0] = UNMARKED;
    out[0] = UNMARKED;
    for r in 1..out.len() {
        let p = parents[r] as usize;
        let x = from[r];
        let seen = from[p];
        out[r] = seen;
        from[p] = seen | x;
        from[r] = UNMARKED;
    }
}

// The cell of a row that the pass has still to reach says whether a marked child of it was passed.
// A pass of its own beside `following_siblings`: forwards the parent's answer is written already, so that its mark is used up instead.
pub fn preceding_siblings(parents: &[u16], from: &[u8], out: &mut [u8])
    requires { AxisPass parents.now from.now out.old }
    ensures { out.new ≡ preceding_sibling_marks parents.now from.now }
{
    out.fill(UNMARKED);
    for r in (1..out.len()).rev() {
        let p = parents[r] as usize;
        let x = from[r];
        let seen = out[p];
        out[r] = seen;
        out[p] = seen | x;
    }
    out[0] = UNMARKED;
}

// The rows after a marked one that are not below it: the following siblings of it and of the rows above it, and all below these.
pub fn following(parents: &[u16], from: &mut [u8], out: &mut [u8])
    requires { AxisPass parents.now from.old out.old }
    ensures { out.new ≡ written_marks following parents.now from.old }
{
    ancestors_or_self(parents, &from[..], out);
    following_siblings(parents, out, from);
    descendants_or_self(parents, &from[..], out);
}

// The rows before a marked one that are not above it.
pub fn preceding(parents: &[u16], from: &mut [u8], out: &mut [u8])
    requires { AxisPass parents.now from.old out.old }
    ensures { out.new ≡ written_marks preceding parents.now from.old }
{
    ancestors_or_self(parents, &from[..], out);
    preceding_siblings(parents, &out[..], from);
    descendants_or_self(parents, &from[..], out);
}
