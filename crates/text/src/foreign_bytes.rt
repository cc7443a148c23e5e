// Whether a text has a byte that fails refusal 3, without its place.
ghost use Rattle.std.specs.Prelude.{◌≡◌};
ghost use Rattle.text_spec.specs.Bytes.{is_foreign};
ghost use Rattle.text_spec.specs.Lists.{any_of};

// Whether some byte fails refusal 3. There is no test in the loop, so that the compiler vectorises it.
pub fn any_foreign(text: &[u8]) -> bool
    ensures { result ≡ any_of is_foreign text.now }
{
    let mut any = false;
    for b in text {
        any |= crate::is_foreign(*b);
    }
    any
}
