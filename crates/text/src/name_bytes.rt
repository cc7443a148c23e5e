// The name at a place of a text, and whether it is a given one.
ghost use Rattle.std.specs.Prelude.{◌≡◌, ◌==◌, drop, length};
ghost use Rattle.text.specs.name_bytes.Names.{IsName};
ghost use Rattle.text_spec.specs.Lists.{same_bytes};
ghost use Rattle.text_spec.specs.Scans.{name_at};

// The text from place p on, empty past its end.
fn rest_at(s: &[u8], p: usize) -> &[u8]
    ensures { result.now ≡ drop p s.now }
{
    s.get(p..).unwrap_or(&[])
}

// The name at place p.
pub fn name_at(s: &[u8], p: usize) -> &[u8]
    ensures value { result.now ≡ name_at s.now p }
    ensures name { IsName result.now }
{
    let rest = rest_at(s, p);
    let len = rest
        .iter()
        .take_while(|b| crate::continues_name(**b))
        .count();
    &rest[..len]
}

// Whether no byte of a name stands at place k.
fn ends_at(s: &[u8], k: usize) -> bool
    ensures { result ≡ (length (name_at s.now k) == 0) }
{
    match s.get(k) {
        Some(b) => !crate::continues_name(*b),
        None => true,
    }
}

// Whether the name at place p is the given one.
pub fn is_named(s: &[u8], p: usize, name: &[u8]) -> bool
    requires { IsName name.now }
    ensures { result ≡ same_bytes name.now (name_at s.now p) }
{
    let rest = rest_at(s, p);
    rest.starts_with(name) && ends_at(rest, name.len())
}
