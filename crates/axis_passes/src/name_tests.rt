// The tests of nodes by their names.
ghost use Rattle.std.specs.Prelude.{◌≡◌, ℕ, ◌<◌, ◌+◌};
ghost use Rattle.axis_passes.specs.name_tests.Ranges.{InRange};
ghost use Rattle.axis_passes.specs.name_tests.Tests.{name_with_code, names_in, TestPass};
ghost use Rattle.cells.specs.row_sets.Columns.{intersection};
ghost use Rattle.compiled_paths.specs.Steps.{node_test};
ghost use Rattle.path_spec.specs.Selection.{passes};
ghost use Rattle.selection_laws.specs.marks.Passes.{range_marks};
ghost use Rattle.selection_laws.specs.marks.Selection.{test_marks};
ghost use Rattle.text_spec.specs.Limits.{max_declarations};

use compiled_paths::NodeTest;
use text::limits::MAX_DECLARATIONS;

// The first code of a text name: those below are the elements'.
const TEXT_NAMES: u8 = MAX_DECLARATIONS as u8;

// The name with a code passes the test.
fn passes(test: NodeTest, code: u8) -> bool
    ensures { code < max_declarations + max_declarations → result ≡ passes (node_test test) (name_with_code code) }
{
    match test {
        NodeTest::Node => true,
        NodeTest::Text => TEXT_NAMES <= code,
        NodeTest::Element(element) => code == element && code < TEXT_NAMES,
    }
}

// The marked rows whose names pass the test: those whose codes are in the range of a test that has one.
pub fn filter_test(codes: &[u8], test: NodeTest, from: &[u8], out: &mut [u8])
    requires { TestPass codes.now from.now out.old }
    ensures marks { out.new ≡ intersection from.now (test_marks (node_test test) (names_in codes.now)) }
    ensures range { (low high : ℕ) → InRange low high (node_test test) → out.new ≡ intersection from.now (range_marks low high codes.now) }
{
    for (r, code) in codes.iter().enumerate() {
        out[r] = from[r] & u8::from(passes(test, *code));
    }
}
