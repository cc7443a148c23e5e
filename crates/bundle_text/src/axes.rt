// Axes, each judged with its `::`. What two axes have in common is read once.
ghost use Rattle.std.specs.Prelude.{[], ◌≤◌, ◌<◌, length};
ghost use Rattle.bundle_text.specs.axes.Readings.{single, double, parent_or_preceding, ReadsAxis};
ghost use Rattle.path_spec.specs.Machine.{begin_step};

use compiled_paths::Axis;
use text::scanning;

// Past the rest w of the axis: the axis and the place past its `::`, or where the text departs from all axes.
fn rest(s: &[u8], at: usize, w: &[u8], axis: Axis) -> Result<(Axis, usize), usize>
    requires { (at ≤ length s.now) × (0 < length w.now) }
    ensures { ReadsAxis (single axis w.now) s.now at result }
{
    let j = scanning::spell(s, at, w)?;
    Ok((axis, j))
}

// Past the `::` of the axis, or past the hyphen and the rest e of the longer one.
fn ending(s: &[u8], at: usize, axis: Axis, longer: Axis, e: &[u8]) -> Result<(Axis, usize), usize>
    requires { (at ≤ length s.now) × (0 < length e.now) }
    ensures { ReadsAxis (double axis longer [] e.now) s.now at result }
{
    if s.len() <= at {
        return Err(at);
    }
    match s[at] {
        b':' => rest(s, at + 1, b":", axis),
        b'-' => rest(s, at + 1, e, longer),
        _ => Err(at),
    }
}

// Past the rest of the axis or of the longer one. Both go on with w, and the longer one then with a hyphen and e.
fn either(
    s: &[u8],
    at: usize,
    w: &[u8],
    axis: Axis,
    longer: Axis,
    e: &[u8],
) -> Result<(Axis, usize), usize>
    requires { (at ≤ length s.now) × (0 < length w.now) × (0 < length e.now) }
    ensures { ReadsAxis (double axis longer w.now e.now) s.now at result }
{
    let j = scanning::spell(s, at, w)?;
    ending(s, j, axis, longer, e)
}

// Past the rest of an axis that begins with `p`.
fn parent_or_preceding(s: &[u8], at: usize) -> Result<(Axis, usize), usize>
    requires { at ≤ length s.now }
    ensures { ReadsAxis parent_or_preceding s.now at result }
{
    if s.len() <= at {
        return Err(at);
    }
    match s[at] {
        b'a' => rest(s, at + 1, b"rent::", Axis::Parent),
        b'r' => either(
            s,
            at + 1,
            b"eceding",
            Axis::Preceding,
            Axis::PrecedingSibling,
            b"sibling::",
        ),
        _ => Err(at),
    }
}

// The axis that is due at `at`.
pub fn axis(s: &[u8], at: usize) -> Result<(Axis, usize), usize>
    requires { at ≤ length s.now }
    ensures { ReadsAxis begin_step s.now at result }
{
    if s.len() <= at {
        return Err(at);
    }
    let next = at + 1;
    match s[at] {
        b'c' => rest(s, next, b"hild::", Axis::Child),
        b'd' => either(
            s,
            next,
            b"escendant",
            Axis::Descendant,
            Axis::DescendantOrSelf,
            b"or-self::",
        ),
        b'a' => either(
            s,
            next,
            b"ncestor",
            Axis::Ancestor,
            Axis::AncestorOrSelf,
            b"or-self::",
        ),
        b'p' => parent_or_preceding(s, next),
        b's' => rest(s, next, b"elf::", Axis::SelfNode),
        b'f' => either(
            s,
            next,
            b"ollowing",
            Axis::Following,
            Axis::FollowingSibling,
            b"sibling::",
        ),
        _ => Err(at),
    }
}
