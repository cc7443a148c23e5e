// Steps without brackets: an axis, and a test that is a name, `node()` or `text()`.
ghost use Rattle.std.specs.Prelude.{◌≡◌, ◌≤◌, ◌<◌, length};
ghost use Rattle.bundle_text.specs.steps.Readings.{Stands, Within, ReadsTest, named-at, called, last_read, ReadsPlain};
ghost use Rattle.path_spec.specs.Machine.{before_test};
ghost use Rattle.text_spec.specs.Limits.{max_bundle_bytes};
ghost use Rattle.text_spec.specs.Scans.{byte_at};

use crate::axes;
use compiled_paths::Axis;
use text::{name_bytes, scanning};

// A test as it is read: a name by its place in the text, of at most 4,104 bytes.
#[derive(Clone, Copy, Debug, PartialEq, Eq)]
pub enum TestRead {
    Node,
    Text,
    Name(u16),
}

// Beside `compiled_paths::Step`, whose test is an element: a `Step<T>` would put its parameter into each law that speaks of a step, and is no plainer.
#[derive(Clone, Copy, Debug, PartialEq, Eq)]
pub struct StepRead {
    pub axis: Axis,
    pub test: TestRead,
    // whether the alternative of a condition ends with this step
    pub ends_alternative: bool,
}

impl StepRead {
    // The same step as the last one of its alternative.
    pub fn last(self) -> StepRead
        ensures { result ≡ last_read self }
    {
        StepRead {
            ends_alternative: true,
            ..self
        }
    }
}

// Whether the byte b stands at `at`.
// A function and no `s.get(at) == Some(&b)` at each place: what it promises, `Stands`, may not change.
pub fn stands(s: &[u8], at: usize, b: u8) -> bool
    ensures { Stands s.now at b result }
{
    at < s.len() && s[at] == b
}

// Past the `)` of the test: the test and the place past it, or where the text departs from it.
fn close(s: &[u8], at: usize, test: TestRead) -> Result<(TestRead, usize), usize>
    requires { Within s.now test }
    ensures { ReadsTest (called s.now test) s.now at result }
{
    if stands(s, at, b')') {
        Ok((test, at + 1))
    } else {
        Err(at)
    }
}

// The name at p, whose end is the `(` at `at`, is one of the two that are called.
fn call(s: &[u8], p: usize, at: usize) -> Result<(TestRead, usize), usize>
    requires { (at < length s.now) × (byte_at s.now at ≡ 0x28) }
    ensures { ReadsTest (named-at s.now p) s.now at result }
{
    if name_bytes::is_named(s, p, b"node") {
        return close(s, at + 1, TestRead::Node);
    }
    if name_bytes::is_named(s, p, b"text") {
        return close(s, at + 1, TestRead::Text);
    }
    Err(at)
}

// The test that is due at `at`.
pub fn node_test(s: &[u8], at: usize) -> Result<(TestRead, usize), usize>
    requires { length s.now ≤ max_bundle_bytes }
    ensures { ReadsTest before_test s.now at result }
{
    if s.len() <= at || !text::starts_name(s[at]) {
        return Err(at);
    }
    let j = scanning::name_end(s, at)?;
    if stands(s, j, b'(') {
        return call(s, at, j);
    }
    Ok((TestRead::Name(at as u16), j))
}

// The step without brackets that is due at `at`, and the place past it.
pub fn plain_step(s: &[u8], at: usize) -> Result<(StepRead, usize), usize>
    requires { (at ≤ length s.now) × (length s.now ≤ max_bundle_bytes) }
    ensures { ReadsPlain s.now at result }
{
    let (axis, i) = axes::axis(s, at)?;
    let (test, j) = node_test(s, i)?;
    Ok((
        StepRead {
            axis,
            test,
            ends_alternative: false,
        },
        j,
    ))
}
