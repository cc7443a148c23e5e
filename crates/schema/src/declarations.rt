// One declaration of a schema text, by recursive descent: where it ends or departs from the grammar, the places of the names that it uses,
// and the position automaton of its content model.
ghost use Rattle.std.specs.Prelude.{◌≤◌, ◌<◌, length};
ghost use Rattle.schema.specs.declarations.Declarations.{ReadsKeyword, ReadsDeclaredName, Declared};
ghost use Rattle.text.specs.scanning.Outcomes.{NoBlank};

use crate::parsing::Parser;
use models::Content;
use text::scanning;

// A declaration: the place past it, that of its name, the number of names noted so far, and its content.
#[derive(Drop)]
pub struct DeclarationEnd {
    pub at: usize,
    pub name: usize,
    pub n: usize,
    pub content: Content,
}

// Past `<!ELEMENT` at `at` and its blanks.
fn keyword(s: &[u8], at: usize) -> Result<usize, usize>
    requires { (at < length s.now) × NoBlank s.now at }
    ensures { ReadsKeyword s.now at result }
{
    if s[at] != b'<' {
        return Err(at);
    }
    scanning::space(s, scanning::spell(s, at + 1, b"!ELEMENT")?)
}

// Past the declared name at i and its blanks.
fn declared_name(s: &[u8], i: usize) -> Result<usize, usize>
    requires { (i ≤ length s.now) × NoBlank s.now i }
    ensures { ReadsDeclaredName s.now i result }
{
    match s.get(i) {
        Some(b) if text::starts_name(*b) => scanning::space(s, scanning::name_end(s, i)?),
        _ => Err(i),
    }
}

// Past the declaration at `at`. The places of the names in its content are noted from n on, and of the positions of its model those that each
// may come after.
// No method of `Parser`, since it is made here: callers lend plain slices, also of arrays inside a struct.
pub fn declaration(
    s: &[u8],
    at: usize,
    uses: &mut [usize],
    n: usize,
    predecessors: &mut [u64],
) -> Result<DeclarationEnd, usize>
    requires { (at < length s.now) × (n ≤ at) × NoBlank s.now at }
    ensures { Declared s.now at n uses.old uses.new predecessors.old predecessors.new result }
{
    let name = keyword(s, at)?;
    let body = declared_name(s, name)?;
    let mut parser = Parser {
        text: s,
        uses,
        count: n,
        start: n,
        predecessors,
    };
    let read = parser.body(body)?;
    Ok(DeclarationEnd {
        at: read.at,
        name,
        n: parser.count,
        content: read.content,
    })
}
