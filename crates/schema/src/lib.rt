// Schemas: the type with its limits, and the parser of their texts.
#![tactic(auto)]

pub mod contents;
pub mod declaration_limits;
pub mod declarations;
pub mod groups;
pub mod indicators;
pub mod parsing;
pub mod particles;
pub mod places;
pub mod separators;
pub mod used_names;

ghost use Rattle.std.specs.Prelude.{◌≡◌};
ghost use Rattle.schema.specs.Judging.{empty_schema};

use text::limits;

// A schema: an accepted text in its normal form, in the first `len` bytes; the others are 0.
// A length beside its cells, since hosts keep such a record.
#[derive(Clone, Copy)]
pub struct Schema {
    pub bytes: [u8; Schema::MAX_BYTES],
    pub len: usize,
}

impl Schema {
    pub const MAX_DECLARATIONS: usize = limits::MAX_DECLARATIONS;

    pub const MAX_MODEL_NAMES: usize = limits::MAX_MODEL_NAMES;

    pub const MAX_BYTES: usize = limits::MAX_SCHEMA_BYTES;

    pub const MAX_GROUPS: usize = limits::MAX_GROUPS;

    // The schema that the reader hands back on refusal.
    pub fn empty() -> Self
        ensures { result ≡ empty_schema }
    {
        Schema {
            bytes: [0; Schema::MAX_BYTES],
            len: 0,
        }
    }
}
