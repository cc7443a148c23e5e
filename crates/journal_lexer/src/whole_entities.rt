// An entity recognised at once, by the bytes after its `&`, and the character that it stands for.
ghost use Rattle.std.specs.Prelude.{◌≡◌, ◌≤◌, length};
ghost use Rattle.journal_lexer.specs.whole_entities.Entities.{begins_at, NoLonger, EntityAt, EntityAfter};

// A character, and the place past the bytes that spell it.
#[derive(Clone, Copy)]
pub struct Character {
    pub byte: u8,
    pub next: usize,
}

// Whether bytes stand at a place of a text. Compiled in place, the loop is one test for each byte, with no call: `starts_with` is a call for each word.
#[inline(always)]
fn begins_at(text: &[u8], i: usize, word: &[u8]) -> bool
    requires { i ≤ length text.now }
    ensures { result ≡ begins_at text.now i word.now }
{
    for k in 0..word.len() {
        if text.len() <= i + k || text[i + k] != word[k] {
            return false;
        }
    }
    true
}

// What an `&` before place `i` stands for by `lt;`, `gt;` or none of the five.
fn bracket_after(text: &[u8], i: usize) -> Character
    requires { i ≤ length text.now }
    ensures { NoLonger text.now i → EntityAfter text.now i result.byte result.next }
{
    if begins_at(text, i, b"lt;") {
        let next = i + 3;
        return Character { byte: b'<', next };
    }
    if begins_at(text, i, b"gt;") {
        let next = i + 3;
        return Character { byte: b'>', next };
    }
    Character {
        byte: b'&',
        next: i,
    }
}

// What an `&` before place `i` stands for: by the bytes of an entity, or itself.
// Branches: a loop over a table of the five is no plainer, since its invariant would name those that don't begin there.
pub fn entity_after(text: &[u8], i: usize) -> Character
    requires { i ≤ length text.now }
    ensures { EntityAfter text.now i result.byte result.next }
{
    if begins_at(text, i, b"amp;") {
        let next = i + 4;
        return Character { byte: b'&', next };
    }
    if begins_at(text, i, b"apos;") {
        let next = i + 5;
        return Character { byte: b'\'', next };
    }
    if begins_at(text, i, b"quot;") {
        let next = i + 5;
        return Character { byte: b'"', next };
    }
    bracket_after(text, i)
}

// What an `&` before place `i` stands for by the bytes of an entity, if one stands there.
pub fn entity_at(text: &[u8], i: usize) -> Option<Character>
    requires { i ≤ length text.now }
    ensures { EntityAt text.now i result }
{
    let character = entity_after(text, i);
    if character.next == i {
        return None;
    }
    Some(character)
}
