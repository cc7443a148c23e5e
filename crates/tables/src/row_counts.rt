// The limit of a table: how many rows it can have.
ghost use Rattle.std.specs.Prelude.{◌≡◌, ltb};
ghost use Rattle.text_spec.specs.Limits.{max_nodes};

use text::limits::MAX_NODES;

// Whether so many rows are more than a table can have.
pub fn are_too_many(count: usize) -> bool
    ensures { result ≡ ltb max_nodes count }
{
    count > MAX_NODES
}
