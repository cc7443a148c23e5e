// A range of a lent text: it lies inside the text, and each of its bytes passes refusal 3.
ghost use Rattle.std.specs.Prelude.{◌≡◌};
ghost use Rattle.table_laws.specs.passes.Texts.{range_passes};

use text::foreign_bytes::any_foreign;

// Whether a range lies inside the text, with bytes that pass.
pub fn range_passes(lent: &[u8], start: usize, size: usize) -> bool
    ensures { result ≡ range_passes lent.now start size }
{
    start <= lent.len() && size <= lent.len() - start && !any_foreign(&lent[start..start + size])
}
