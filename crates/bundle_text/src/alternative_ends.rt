// What follows an alternative of a condition: `]`, or ` or ` and the next one.
ghost use Rattle.std.specs.Prelude.{◌≤◌, length};
ghost use Rattle.bundle_text.specs.alternative_ends.Readings.{NoSlash, Followed};

use text::scanning;

// What follows an alternative or a step, by the place past it: the end of what it stands in, or one more.
#[derive(Clone, Copy, Debug, PartialEq, Eq)]
pub enum Follow {
    Close(usize),
    More(usize),
}

// What follows an alternative that ends at `at`: `]` or ` or `.
pub fn after_alternative(s: &[u8], at: usize) -> Result<Follow, usize>
    requires { (at ≤ length s.now) × NoSlash s.now at }
    ensures { Followed s.now at result }
{
    if s.len() <= at {
        return Err(at);
    }
    if s[at] == b']' {
        return Ok(Follow::Close(at + 1));
    }
    if s[at] != b' ' {
        return Err(at);
    }
    let j = scanning::spell(s, at + 1, b"or ")?;
    Ok(Follow::More(j))
}
