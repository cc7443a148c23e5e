// The names in tests, looked up once: the steps that were read of a bundle text, as those of compiled paths.
ghost use Rattle.std.specs.Prelude.{map, ◌≡◌, ◌+◌, ◌≤◌, length};
ghost use Rattle.bundle.specs.names_in_tests.Steps.{compiled_test, earliest, Compiled};
ghost use Rattle.text_spec.specs.Limits.{max_declarations};
ghost use Rattle.text_spec.specs.Scans.{name_at};

use bundle_text::steps::{StepRead, TestRead};
use compiled_paths::{NodeTest, Step};
use text::lookup;

// The test in compiled paths, or the place of its name where no element has that name. The names of the elements stand at the places `names`
// of the schema.
fn compile_test(
    schema: &[u8],
    names: &[usize],
    text: &[u8],
    test: TestRead,
) -> Result<NodeTest, usize>
    requires { length names.now ≤ max_declarations }
    ensures { result ≡ compiled_test (map (name_at schema.now) names.now) text.now test }
{
    match test {
        TestRead::Node => Ok(NodeTest::Node),
        TestRead::Text => Ok(NodeTest::Text),
        TestRead::Name(p) => {
            let place = usize::from(p);
            match lookup::find(schema, names, text, place) {
                Some(e) => Ok(NodeTest::Element(e as u8)),
                None => Err(place),
            }
        }
    }
}

// The lesser of two places.
pub fn earlier(a: Option<usize>, b: Option<usize>) -> Option<usize>
    ensures { result ≡ earliest a b }
{
    match (a, b) {
        (Some(a), Some(b)) => Some(a.min(b)),
        _ => a.or(b),
    }
}

// Writes the steps from the cell `at` on. Gives the least place of a name that no element has, of these and what was lost before.
pub fn compile_steps(
    schema: &[u8],
    names: &[usize],
    text: &[u8],
    read: &[StepRead],
    at: usize,
    steps: &mut [Step],
    lost: Option<usize>,
) -> Option<usize>
    requires { (length names.now ≤ max_declarations) × (at + length read.now ≤ length steps.old) }
    ensures { Compiled (map (name_at schema.now) names.now) text.now read.now at steps.old steps.new lost result }
{
    let mut least = lost;
    for (i, step) in read.iter().enumerate() {
        let test = compile_test(schema, names, text, step.test);
        steps[at + i] = Step {
            axis: step.axis,
            test: test.unwrap_or(NodeTest::Element(0)),
            ends_alternative: step.ends_alternative,
        };
        least = earlier(least, test.err());
    }
    least
}
