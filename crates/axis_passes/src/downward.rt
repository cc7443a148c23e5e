// One pass over columns of marks for each axis down, from the first row to the last.
ghost use Rattle.std.specs.Prelude.{◌≡◌};
ghost use Rattle.axis_passes.specs.downward.Downward.{PassedDown};
ghost use Rattle.path_spec.specs.Paths.{child, descendant, descendant_or_self};
ghost use Rattle.selection_laws.specs.marks.Parents.{image_marks};
ghost use Rattle.selection_laws.specs.marks.Passes.{AxisPass};

use cells::row_sets::UNMARKED;

// Row 0 gets the mark `first`, and each row after it what `rule` gives for its own mark, its parent's mark and what its parent got.
fn pass_down<F: Fn(u8, u8, u8) -> u8>(
    parents: &[u16],
    from: &[u8],
    first: u8,
    rule: F,
    out: &mut [u8],
)
    requires pass { AxisPass parents.now from.now out.old }
    requires rule { F.IsAlwaysCallable rule }
    ensures { PassedDown (F.post rule) parents.now from.now first out.new }
{
    out[0] = first;
    for r in 1..out.len() {
        let p = parents[r] as usize;
        out[r] = rule(from[r], from[p], out[p]);
    }
}

pub fn children(parents: &[u16], from: &[u8], out: &mut [u8])
    requires { AxisPass parents.now from.now out.old }
    ensures { out.new ≡ image_marks child parents.now from.now }
{
    pass_down(parents, from, UNMARKED, |_, above, _| above, out);
}

pub fn descendants(parents: &[u16], from: &[u8], out: &mut [u8])
    requires { AxisPass parents.now from.now out.old }
    ensures { out.new ≡ image_marks descendant parents.now from.now }
{
    pass_down(parents, from, UNMARKED, |_, above, got| above | got, out);
}

pub fn descendants_or_self(parents: &[u16], from: &[u8], out: &mut [u8])
    requires { AxisPass parents.now from.now out.old }
    ensures { out.new ≡ image_marks descendant_or_self parents.now from.now }
{
    pass_down(parents, from, from[0], |own, _, got| own | got, out);
}
