// All declarations of a schema text: where it departs from the grammar (4), the places of its names, and the first place that passes a limit (5).
ghost use Rattle.std.specs.Prelude.{◌≡◌, ◌+◌, ◌*◌, length};
ghost use Rattle.schema.specs.places.Whole.{AllRead};
ghost use Rattle.text_spec.specs.Limits.{max_declarations, max_model_names};

use crate::{declaration_limits, declarations};
use models::MAX_POSITIONS;
use names::MAX_ELEMENTS;
use text::scanning;

// The names that the models of a schema use, and one more: where a limit is passed, its place is among them.
pub const MAX_USES: usize = MAX_ELEMENTS * MAX_POSITIONS + 1;

// All declarations: how many there are, how many names their models use, and the first place that passes a limit, if any does.
#[derive(Drop)]
pub struct Counts {
    pub d: usize,
    pub n: usize,
    pub over: Option<usize>,
}

// Reads all declarations. The places of the declared names go to `names`, those of the names in models to `uses`.
// A `while`: each turn goes on where the declaration before ended.
pub fn all_declarations(s: &[u8], names: &mut [usize], uses: &mut [usize]) -> Result<Counts, usize>
    requires { (length names.old ≡ max_declarations) × (length uses.old ≡ max_declarations * max_model_names + 1) }
    ensures { AllRead s.now names.old names.new uses.new result }
{
    let mut i = scanning::skip(s, 0);
    let mut d: usize = 0;
    let mut n: usize = 0;
    let mut over: Option<usize> = None;
    // judging needs no links between positions, so it lends a single cell for them
    let mut unused = [0u64; 1];
    while i < s.len() {
        let read = declarations::declaration(s, i, uses, n, &mut unused)?;
        scanning::note(names, d, read.name);
        over = over.or(declaration_limits::over_limit(d, i, n, read.n, uses));
        d += 1;
        n = read.n;
        i = scanning::skip(s, read.at);
    }
    if d == 0 {
        return Err(i);
    }
    Ok(Counts { d, n, over })
}
