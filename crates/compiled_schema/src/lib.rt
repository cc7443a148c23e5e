// The compiled schema: the data that is derived from a schema's text. Its names, what is known of each element and what lies below it.
#![tactic(auto)]

pub mod element_entry;
pub mod entries;
pub mod entry_parts;
pub mod held_words;
pub mod record_words;

ghost use Rattle.std.specs.Prelude.{List, [], ℕ};
ghost use Rattle.compiled_schema.specs.Compiled.{CompiledOf, JudgedAs};
ghost use Rattle.compiled_schema.specs.held_words.Words.{WordsOf};
ghost use Rattle.schema_spec.specs.Records.{schema_in};

use crate::entries::Elements;
use crate::entry_parts::ElementEntry;
use names::relations::Relations;
use names::{MAX_ELEMENTS, NameSet};
use schema::places::MAX_USES;
use schema_reader::text_judging;
use text::refusals::Refusal;

// Two arrays and none of pairs: `names` is written when the text is judged, `entries` when it is compiled.
#[derive(Clone, Copy)]
pub struct CompiledSchema {
    // the place of each element's name in the text
    pub names: [usize; MAX_ELEMENTS],
    // what is known of each element
    pub entries: [ElementEntry; MAX_ELEMENTS],
    // how many elements there are, what each holds and what is below it
    pub relations: Relations,
}

impl CompiledSchema {
    // The compiled form of a schema with no element.
    pub fn empty() -> CompiledSchema
        ensures { (text : List ℕ) → CompiledOf text [] result }
    {
        CompiledSchema {
            names: [0; MAX_ELEMENTS],
            entries: [ElementEntry::empty(); MAX_ELEMENTS],
            relations: Relations::of(0, [NameSet::empty(); MAX_ELEMENTS]),
        }
    }

    // What each element holds, as the bits of one word for each.
    pub fn held_words(&self) -> [u64; MAX_ELEMENTS]
        ensures { WordsOf self.now.relations.«holds» result }
    {
        held_words::held_words(&self.relations.holds)
    }
}

// Judges and compiles a text in one reading.
pub fn judge_and_compile(text: &[u8]) -> Result<CompiledSchema, Refusal>
    ensures { JudgedAs text.now result }
{
    let mut names = [0usize; MAX_ELEMENTS];
    let mut uses = [0usize; MAX_USES];
    let count = text_judging::judge_into(text, &mut names, &mut uses)?;
    let Elements { entries, holds } = entries::all_elements(text, &uses, count);
    Ok(CompiledSchema {
        names,
        entries,
        relations: Relations::of(count, holds),
    })
}

// The compiled form of the schema in a text, that of a schema with no element where the text is refused.
pub fn compile(text: &[u8]) -> CompiledSchema
    ensures { CompiledOf text.now (schema_in text.now) result }
{
    match judge_and_compile(text) {
        Ok(schema) => schema,
        Err(_) => CompiledSchema::empty(),
    }
}
