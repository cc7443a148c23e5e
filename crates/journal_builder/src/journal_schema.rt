// What reading a journal asks of its schema: the elements by their names, and the compiled schema.
ghost use Rattle.std.specs.Prelude.{◌≡◌, ◌<◌, ◌%◌, take};
ghost use Rattle.compiled_schema.specs.entries.Entries.{entry_at};
ghost use Rattle.compiled_schema.specs.entry_parts.Entries.{ends_in};
ghost use Rattle.journal_builder.specs.journal_schema.Entries.{Sized};
ghost use Rattle.text_spec.specs.Limits.{max_declarations};

use crate::element_names::ElementNames;
use compiled_schema::CompiledSchema;
use compiled_schema::entry_parts::ElementEntry;
use models::fitting::Automaton;
use models::{Content, Ends};
use names::MAX_ELEMENTS;

#[derive(Drop)]
pub struct JournalSchema<'a> {
    pub names: ElementNames,
    pub compiled: &'a CompiledSchema,
}

// Where a children model may begin and end; any other content has no position.
fn ends_of(content: Content) -> Ends
    ensures { result ≡ ends_in content }
{
    match content {
        Content::Children(ends) => ends,
        _ => Ends {
            first: 0,
            last: 0,
            nullable: false,
        },
    }
}

// What is known of an element.
fn entry(compiled: &CompiledSchema, e: u8) -> &ElementEntry
    ensures { result.now ≡ entry_at compiled.now.entries (e % max_declarations) }
{
    &compiled.entries[e as usize % MAX_ELEMENTS]
}

impl<'a> JournalSchema<'a> {
    ghost use Rattle.journal_builder.specs.journal_schema.Schemas.{entry_of, IsAutomaton, ReadFrom};
    ghost use Rattle.compiled_schema.specs.Compiled.{CompiledOf};
    ghost use Rattle.schema_spec.specs.Records.{schema_in};

    // The schema in a text, by its compiled form.
    pub fn new(text: &[u8], compiled: &'a CompiledSchema) -> JournalSchema<'a>
        requires { CompiledOf text.now (schema_in text.now) compiled.now }
        ensures { ReadFrom text.now result }
    {
        let names = ElementNames::read(text, &compiled.names, compiled.relations.count);
        JournalSchema { names, compiled }
    }

    // What an element is declared to contain.
    pub fn content(&self, e: u8) -> Content
        ensures { result ≡ (entry_of self.now e).content }
    {
        let entry = entry(self.compiled, e);
        entry.content
    }

    // Where the element's model may begin and end.
    pub fn ends(&self, e: u8) -> Ends
        ensures { result ≡ ends_in (entry_of self.now e).content }
    {
        ends_of(self.content(e))
    }

    // The position automaton of the element's model.
    pub fn automaton(&self, e: u8) -> Automaton<'_>
        requires { Sized self.now.compiled.now }
        ensures { IsAutomaton (entry_of self.now e) result }
    {
        let entry = entry(self.compiled, e);
        Automaton {
            ends: ends_of(entry.content),
            elements: &entry.elements[..entry.size],
            predecessors: &entry.predecessors[..entry.size],
        }
    }
}
