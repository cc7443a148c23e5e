// The limits of a schema's declarations (5).
ghost use Rattle.std.specs.Prelude.{◌≡◌, ◌≤◌};
ghost use Rattle.schema.specs.declaration_limits.Limits.{over_limit};

use crate::Schema;

// The first place that passes a limit in the declaration with index d, which starts at i and takes the count of names from n to m.
pub fn over_limit(d: usize, i: usize, n: usize, m: usize, uses: &[usize]) -> Option<usize>
    requires { n ≤ m }
    ensures { result ≡ over_limit d i n m uses.now }
{
    if Schema::MAX_DECLARATIONS <= d {
        return Some(i);
    }
    if Schema::MAX_MODEL_NAMES < m - n {
        return Some(uses.get(n + Schema::MAX_MODEL_NAMES).copied().unwrap_or(0));
    }
    None
}
