// For tests alone: what the functions for C of the other crates test_.. answer, and records of any bytes that tests hand in.
#![tactic(auto)]

ghost use Rattle.std.specs.Prelude.{◌≡◌};
ghost use Rattle.test_records.specs.Outcomes.{answered_as, refused_as, cells_as, record_as};

use bundle::reader::Bundle;
use compiled_paths::{Axis, CompiledPaths, NodeTest, Step};
use schema::Schema;
use text::refusals::Refusal;

// The number of the refusal and its place, or 0 and 0; how many cells are answered; and a second number, where a function says which. Numbers
// and no Result: it is the C interface of the tests.
#[repr(C)]
#[derive(Clone, Copy)]
pub struct Outcome {
    pub number: u64,
    pub place: u64,
    pub size: u64,
    pub other: u64,
}

impl From<Refusal> for Outcome {
    ghost from_gives = { λ f r. r ≡ refused_as f 0 };

    fn from(refusal: Refusal) -> Outcome {
        Outcome {
            number: refusal.reason.number(),
            place: refusal.place as u64,
            size: 0,
            other: 0,
        }
    }
}

// So many cells answered, or a refusal.
impl From<Result<usize, Refusal>> for Outcome {
    ghost from_gives = { λ answer r. r ≡ cells_as answer };

    fn from(answer: Result<usize, Refusal>) -> Outcome {
        match answer {
            Ok(size) => answered(size, 0),
            Err(refusal) => Outcome::from(refusal),
        }
    }
}

pub fn answered(size: usize, other: u64) -> Outcome
    ensures { result ≡ answered_as size other }
{
    Outcome {
        number: 0,
        place: 0,
        size: size as u64,
        other,
    }
}

// What reading a text into a record answers: the length of what is handed back, and how much it holds or the refusal.
pub fn of_record(answer: Result<usize, Refusal>, len: usize) -> Outcome
    ensures { result ≡ record_as answer len }
{
    match answer {
        Ok(count) => answered(len, count as u64),
        Err(refusal) => Outcome {
            size: len as u64,
            ..Outcome::from(refusal)
        },
    }
}

// Copies as far as both go.
// A loop and no `copy_from_slice`: in the C interface of the tests the lengths may differ.
pub fn copy<T: Copy>(from: &[T], out: &mut [T]) {
    for i in 0..from.len().min(out.len()) {
        out[i] = from[i];
    }
}

// The number of a step's axis, and 16 more at the last step of an alternative.
fn axis_cell(step: Step) -> u8 {
    let number = match step.axis {
        Axis::SelfNode => 0,
        Axis::Child => 1,
        Axis::Descendant => 2,
        Axis::DescendantOrSelf => 3,
        Axis::Parent => 4,
        Axis::Ancestor => 5,
        Axis::AncestorOrSelf => 6,
        Axis::Following => 7,
        Axis::FollowingSibling => 8,
        Axis::Preceding => 9,
        Axis::PrecedingSibling => 10,
    };
    if step.ends_alternative {
        number + 16
    } else {
        number
    }
}

// The number of a step's test: 254 for any node, 255 for any text, of a name the index of its element.
fn test_cell(step: Step) -> u8 {
    match step.test {
        NodeTest::Node => 254,
        NodeTest::Text => 255,
        NodeTest::Element(e) => e,
    }
}

// Compiled paths as columns of numbers.
// Loops by hand: in the C interface of the tests compiled paths are columns of numbers, of any length.
pub fn copy_paths(
    c: &CompiledPaths,
    paths: &mut [u8],
    conditions: &mut [u16],
    axes: &mut [u8],
    tests: &mut [u8],
) {
    for i in 0..c.paths.len().min(paths.len()) {
        paths[i] = (c.paths[i] % 256) as u8;
    }
    copy(&c.conditions, conditions);
    for k in 0..c.steps.len().min(axes.len()) {
        axes[k] = axis_cell(c.steps[k]);
    }
    for k in 0..c.steps.len().min(tests.len()) {
        tests[k] = test_cell(c.steps[k]);
    }
}

// A record of any bytes and any length; past the bytes its cells are 0.
pub fn schema_of(cells: &[u8], len: usize) -> Schema {
    let mut bytes = [0u8; Schema::MAX_BYTES];
    copy(cells, &mut bytes);
    Schema { bytes, len }
}

pub fn bundle_of(cells: &[u8], len: usize) -> Bundle {
    let mut bytes = [0u8; bundle::MAX_BYTES];
    copy(cells, &mut bytes);
    Bundle { bytes, len }
}

// Functions of bundle and bundle_text that no program calls.
#[cfg(test)]
mod tests {
    use bundle::columns::fill;
    use bundle_text::notes::Notes;
    use bundle_text::steps::{StepRead, TestRead};
    use bundle_text::written_steps::written_step;
    use compiled_paths::{Axis, NodeTest};

    // A step with one in its brackets: both are noted and counted, and then compiled.
    #[test]
    fn a_step_with_brackets(rt: HostRuntime) {
        let text = b"self::a[child::b]";
        let mut notes = Notes::new();
        let past = written_step(text, 0, &mut notes);
        assert_eq!(rt; past.is_ok(), true);
        assert_eq!(rt; notes.outer_count, 1);
        assert_eq!(rt; notes.inner_count, 1);
        assert_eq!(rt; notes.conditions[1], 129);
        let compiled = fill(b"a b", &[0, 2], text, &notes);
        assert_eq!(rt; compiled.is_ok(), true);
        if let Ok(paths) = compiled {
            assert_eq!(rt; paths.steps[0].test, NodeTest::Element(0));
            assert_eq!(rt; paths.steps[1].test, NodeTest::Node);
            assert_eq!(rt; paths.steps[128].test, NodeTest::Element(1));
            assert_eq!(rt; paths.steps[128].ends_alternative, true);
        }
        assert_eq!(rt;
            fill(b"a", &[0], text, &notes).err(),
            Some(15),
            "b is no element"
        );
    }

    #[test]
    fn a_step_after_those_in_its_brackets(rt: HostRuntime) {
        let step = StepRead {
            axis: Axis::Child,
            test: TestRead::Text,
            ends_alternative: false,
        };
        let mut notes = Notes::new();
        notes.note_inner(step);
        notes.note_outer(step);
        assert_eq!(rt; notes.outer[0], step);
        assert_eq!(rt; notes.outer_count, 1);
        assert_eq!(rt; notes.conditions[1], 129);
    }
}
