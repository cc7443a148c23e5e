// What needed names are asked of.
ghost use Rattle.std.specs.Prelude.{map, ◌≡◌, ◌+◌, ◌≤◌};
ghost use Rattle.compiled_paths.specs.Sizes.{all_steps};
ghost use Rattle.compiled_paths.specs.Steps.{plain_in, plain_step};

use compiled_paths::{CompiledPaths, Step};
use names::NameSet;
use names::relations::Relations;

#[derive(Clone, Copy)]
pub struct Asked<'a> {
    pub relations: &'a Relations,
    // all names of the schema
    pub all: NameSet,
    pub paths: &'a CompiledPaths,
}

impl<'a> Asked<'a> {
    // The `n` steps from `k` on. A count and a place, here and in what asks of them, and no `Range`: so the definitions count (`plain_in`), and
    // a `Range` is no `Copy`, so it would be cloned at each use.
    pub fn steps(&self, k: usize, n: usize) -> &[Step]
        requires { k + n ≤ all_steps }
        ensures { map plain_step result.now ≡ plain_in self.now.paths.now.steps n k }
    {
        let steps = &self.paths.steps[..];
        &steps[k..k + n]
    }
}
