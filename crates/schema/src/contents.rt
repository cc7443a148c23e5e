// The content of a declaration, by recursive descent: where it ends or departs from the grammar, the places of the names that it uses, and the
// position automaton of its model.
ghost use Rattle.std.specs.Prelude.{◌≤◌, length};
ghost use Rattle.schema_spec.specs.Machine.{before_content, after_open, after_content};
ghost use Rattle.schema.specs.contents.Contents.{ReadsPcdata, ReadsContent, ended};
ghost use Rattle.text.specs.scanning.Outcomes.{NoBlank};

use crate::parsing::Parser;
use models::Content;
use text::scanning;

// A content: the place past it, and what it is.
#[derive(Drop)]
pub struct ContentEnd {
    pub at: usize,
    pub content: Content,
}

// Past `PCDATA)`, with blanks before the `)`.
fn pcdata(s: &[u8], at: usize) -> Result<usize, usize>
    requires { at ≤ length s.now }
    ensures { ReadsPcdata s.now at result }
{
    let i = scanning::skip(s, scanning::spell(s, at, b"PCDATA")?);
    match s.get(i) {
        Some(b')') => Ok(i + 1),
        _ => Err(i),
    }
}

impl Parser<'_> {
    // Past `(#PCDATA)` or a children model, whose `(` stands before `at`.
    fn model(&mut self, at: usize) -> Result<ContentEnd, usize>
        requires { (at ≤ length self.old.text.now) × (self.old.count ≤ at) }
        ensures { ReadsContent after_open after_content at self.old self.new result }
    {
        let i = scanning::skip(self.text, at);
        match self.text.get(i) {
            None => Err(i),
            Some(b'#') => Ok(ContentEnd {
                at: pcdata(self.text, i + 1)?,
                content: Content::Pcdata,
            }),
            Some(_) => {
                // set here, so that no caller owes it
                self.start = self.count;
                let group = self.group(i, 0)?;
                let whole = self.indicated(group);
                Ok(ContentEnd {
                    at: whole.at,
                    content: Content::Children(whole.ends),
                })
            }
        }
    }

    // Past the content at `at`.
    fn content(&mut self, at: usize) -> Result<ContentEnd, usize>
        requires { (at ≤ length self.old.text.now) × (self.old.count ≤ at) × NoBlank self.old.text.now at }
        ensures { ReadsContent before_content after_content at self.old self.new result }
    {
        match self.text.get(at) {
            Some(b'(') => self.model(at + 1),
            Some(b'E') => Ok(ContentEnd {
                at: scanning::spell(self.text, at + 1, b"MPTY")?,
                content: Content::Empty,
            }),
            _ => Err(at),
        }
    }

    // Past the content at `at` and the `>` of its declaration.
    pub fn body(&mut self, at: usize) -> Result<ContentEnd, usize>
        requires { (at ≤ length self.old.text.now) × (self.old.count ≤ at) × NoBlank self.old.text.now at }
        ensures { ReadsContent before_content ended at self.old self.new result }
    {
        let read = self.content(at)?;
        let i = scanning::skip(self.text, read.at);
        match self.text.get(i) {
            Some(b'>') => Ok(ContentEnd {
                at: i + 1,
                content: read.content,
            }),
            _ => Err(i),
        }
    }
}
