// The paths of a bundle in fixed memory, derived from its text and never judged.
#![tactic(auto)]

ghost use Rattle.std.specs.Prelude.{[], ◌≡◌, ◌+◌, ◌≤◌, ◌<◌, length, ltb, not};
ghost use Rattle.compiled_paths.specs.Columns.{written_of, last_mark, axis_number, test_of};
ghost use Rattle.compiled_paths.specs.Steps.{written_axis, node_test, first_size, start_at, end_at};
ghost use Rattle.compiled_paths.specs.Paths.{paths_in, Shaped};
ghost use Rattle.compiled_paths.specs.Sizes.{written_steps, all_steps};
ghost use Rattle.text_spec.specs.Limits.{max_paths};

use std::ops::Range;
use text::limits::{MAX_PATH_BYTES, MAX_PATHS, MAX_STEPS};

// The fewest bytes that a step in brackets takes, with the byte before it.
pub const STEP_BYTES: usize = 8;

// The steps outside brackets, and all steps: one in brackets takes at least eight bytes of its path.
pub const WRITTEN_STEPS: usize = MAX_PATHS * MAX_STEPS;

pub const STEPS: usize = WRITTEN_STEPS + MAX_PATHS * MAX_PATH_BYTES / STEP_BYTES;

// A start for each path or condition, and one past the last.
pub const PATH_STARTS: usize = MAX_PATHS + 1;

pub const CONDITION_STARTS: usize = WRITTEN_STEPS + 1;

// The axes of document 01, then those of document 02, R-1, each before its sibling axis.
#[derive(Clone, Copy, Debug, PartialEq, Eq)]
pub enum Axis {
    SelfNode,
    Child,
    Descendant,
    DescendantOrSelf,
    Parent,
    Ancestor,
    AncestorOrSelf,
    Following,
    FollowingSibling,
    Preceding,
    PrecedingSibling,
}

impl Axis {
    // The axis with this number: they are numbered in the order above, and every other number is that of the node itself.
    pub fn from_number(number: u8) -> Axis
        ensures { written_axis result ≡ written_of number }
    {
        match number {
            1 => Axis::Child,
            2 => Axis::Descendant,
            3 => Axis::DescendantOrSelf,
            4 => Axis::Parent,
            5 => Axis::Ancestor,
            6 => Axis::AncestorOrSelf,
            7 => Axis::Following,
            8 => Axis::FollowingSibling,
            9 => Axis::Preceding,
            10 => Axis::PrecedingSibling,
            _ => Axis::SelfNode,
        }
    }
}

// What a step asks of a node: that it is the element with this index in the schema, nothing, or that it is a text.
#[derive(Clone, Copy, Debug, PartialEq, Eq)]
pub enum NodeTest {
    Element(u8),
    Node,
    Text,
}

// The tests by their numbers: these two, and of an element its index.
pub const ANY_NODE: u8 = 254;

pub const ANY_TEXT: u8 = 255;

impl NodeTest {
    // The test with this number.
    pub fn from_number(number: u8) -> NodeTest
        ensures { node_test result ≡ test_of number }
    {
        match number {
            ANY_NODE => NodeTest::Node,
            ANY_TEXT => NodeTest::Text,
            _ => NodeTest::Element(number),
        }
    }
}

#[derive(Clone, Copy, Debug, PartialEq, Eq)]
pub struct Step {
    pub axis: Axis,
    pub test: NodeTest,
    // whether the alternative of a condition ends with this step
    pub ends_alternative: bool,
}

// Added to the number of the axis at the last step of an alternative.
pub const LAST: u8 = 16;

impl Step {
    // The step in a cell of axes and one of tests: numbers, that of the axis with 16 more where an alternative ends.
    pub fn from_cells(axis: u8, test: u8) -> Step
        ensures axis { written_axis result.axis ≡ written_of (axis_number axis) }
        ensures test { node_test result.test ≡ test_of test }
        ensures mark { not result.ends_alternative ≡ ltb axis last_mark }
    {
        let ends_alternative = LAST <= axis;
        let number = if ends_alternative { axis - LAST } else { axis };
        Step {
            axis: Axis::from_number(number),
            test: NodeTest::from_number(test),
            ends_alternative,
        }
    }
}

// In a cell that no step is written to.
pub const NO_STEP: Step = Step {
    axis: Axis::SelfNode,
    test: NodeTest::Element(0),
    ends_alternative: false,
};

// Each range starts at its cell and ends where the next one starts.
#[derive(Drop)]
pub struct CompiledPaths {
    // how many paths there are
    pub count: usize,
    // for each path the range of its written steps
    pub paths: [u16; PATH_STARTS],
    // for each written step the range of the steps in its condition's alternatives, empty where it has no condition
    pub conditions: [u16; CONDITION_STARTS],
    // the steps: those outside brackets, and from 128 on those in brackets
    pub steps: [Step; STEPS],
}

// The range of the cell `i`: it ends where the next one starts.
pub fn range_at(starts: &[u16], i: usize) -> Range<usize>
    requires { i + 1 < length starts.now }
    ensures { (result.start ≡ start_at starts.now i) × (result.end ≡ end_at starts.now i) }
{
    let first = usize::from(starts[i]);
    first..first.max(usize::from(starts[i + 1]))
}

// The same in a column of bytes.
pub fn byte_range_at(starts: &[u8], i: usize) -> Range<usize>
    requires { i + 1 < length starts.now }
    ensures { (result.start ≡ start_at starts.now i) × (result.end ≡ end_at starts.now i) }
{
    let start = usize::from(starts[i]);
    let past = usize::from(starts[i + 1]);
    start..past.max(start)
}

// How many steps the first alternative has of those that take `n` steps from `k` on.
pub fn first_size(steps: &[Step], k: usize, n: usize) -> usize
    requires { k + n ≤ length steps.now }
    ensures { result ≡ first_size steps.now n k }
{
    for i in 0..n {
        if steps[k + i].ends_alternative {
            return i + 1;
        }
    }
    n
}

impl CompiledPaths {
    // No path.
    pub fn empty() -> CompiledPaths
        ensures { (paths_in result ≡ []) × Shaped result }
    {
        CompiledPaths {
            count: 0,
            paths: [0; PATH_STARTS],
            conditions: [0; CONDITION_STARTS],
            steps: [NO_STEP; STEPS],
        }
    }

    // The written steps of the path `i`.
    pub fn path(&self, i: usize) -> Range<usize>
        requires { i < max_paths }
        ensures { (result.start ≡ start_at self.now.paths i) × (result.end ≡ end_at self.now.paths i) }
    {
        range_at(&self.paths, i)
    }

    // The steps in the alternatives of the written step `k`.
    pub fn condition(&self, k: usize) -> Range<usize>
        requires { k < written_steps }
        ensures { (result.start ≡ start_at self.now.conditions k) × (result.end ≡ end_at self.now.conditions k) }
    {
        range_at(&self.conditions, k)
    }

    // The same of the steps here.
    pub fn first_size(&self, k: usize, n: usize) -> usize
        requires { k + n ≤ all_steps }
        ensures { result ≡ first_size self.now.steps n k }
    {
        first_size(&self.steps, k, n)
    }
}
