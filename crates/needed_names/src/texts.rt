// The names that a bundle text needs under a schema text, from the compiled forms of both.
ghost use Rattle.needed_names.specs.texts.Texts.{NeededBy};

use crate::sets::needed_under;
use bundle::byte_judging;

// As 64 bits. Of a schema text that is refused nothing is said.
pub fn needed_by_texts(schema: &[u8], text: &[u8]) -> u64
    ensures { NeededBy schema.now text.now result }
{
    let compiled = compiled_schema::compile(schema);
    let names = compiled.names;
    let count = compiled.relations.count;
    match byte_judging::judge_bundle(schema, &names[..count], text) {
        Ok(paths) => needed_under(&compiled, &paths).to_word(),
        // a bundle text that is refused has no path
        Err(_) => 0,
    }
}
