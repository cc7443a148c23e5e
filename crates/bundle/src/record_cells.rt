// The cells of a bundle's record, against those of its text.
ghost use Rattle.std.specs.Prelude.{◌&&◌, ◌≡◌, leb, take};
ghost use Rattle.text_spec.specs.Cells.{padded};
ghost use Rattle.text_spec.specs.Limits.{max_bundle_bytes};
ghost use Rattle.text_spec.specs.Lists.{same_bytes};

use crate::reader::{Bundle, recorded};

// Whether the record's cells are those of its text, which is not too long.
pub fn holds_text(bundle: Bundle) -> bool
    ensures { result ≡ (leb bundle.len max_bundle_bytes && same_bytes bundle.bytes (padded max_bundle_bytes (take bundle.len bundle.bytes))) }
{
    if crate::MAX_BYTES < bundle.len {
        return false;
    }
    bundle.bytes == recorded(&bundle.bytes[..bundle.len]).bytes
}
