// One pass over a column of marks for each axis up, from the last row to the first: each row marks its parent.
ghost use Rattle.std.specs.Prelude.{◌≡◌};
ghost use Rattle.axis_passes.specs.upward.Upward.{Raises};
ghost use Rattle.path_spec.specs.Paths.{parent, ancestor, ancestor_or_self};
ghost use Rattle.selection_laws.specs.marks.Parents.{image_marks};
ghost use Rattle.selection_laws.specs.marks.Passes.{AxisPass, Upward, up_axis};

use cells::row_sets::{UNMARKED, copy};

// Each row but row 0 adds to its parent's cell what `rule` gives for its own mark and its own cell, to which the rows below it have added.
fn pass_up<F: Fn(u8, u8) -> u8>(parents: &[u16], from: &[u8], rule: F, out: &mut [u8])
    requires pass { AxisPass parents.now from.now out.old }
    requires rule { F.IsAlwaysCallable rule }
    ensures { (a : Upward) → Raises a (F.post rule) parents.now from.now out.old → out.new ≡ image_marks (up_axis a) parents.now from.now }
{
    for r in (1..out.len()).rev() {
        let mark = rule(from[r], out[r]);
        out[parents[r] as usize] |= mark;
    }
}

pub fn parents_of(parents: &[u16], from: &[u8], out: &mut [u8])
    requires { AxisPass parents.now from.now out.old }
    ensures { out.new ≡ image_marks parent parents.now from.now }
{
    out.fill(UNMARKED);
    pass_up(parents, from, |own, _| own, out);
}

pub fn ancestors(parents: &[u16], from: &[u8], out: &mut [u8])
    requires { AxisPass parents.now from.now out.old }
    ensures { out.new ≡ image_marks ancestor parents.now from.now }
{
    out.fill(UNMARKED);
    pass_up(parents, from, |own, added| own | added, out);
}

pub fn ancestors_or_self(parents: &[u16], from: &[u8], out: &mut [u8])
    requires { AxisPass parents.now from.now out.old }
    ensures { out.new ≡ image_marks ancestor_or_self parents.now from.now }
{
    copy(from, out);
    pass_up(parents, from, |_, added| added, out);
}
