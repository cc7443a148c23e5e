// The schema and the bundle that a host function is handed, judged in turn, each read once, and the place in the bundle that it asks for.
ghost use Rattle.std.specs.Prelude.{◌≡◌};
ghost use Rattle.hosts.specs.texts.Texts.{TextsJudged, range_of};

use bundle::byte_judging;
use compiled_paths::CompiledPaths;
use compiled_schema::{CompiledSchema, judge_and_compile};
use text::limits::MAX_PATHS;
use text::refusals::Refusal;

// Both texts compiled.
#[derive(Drop)]
pub struct Texts {
    pub schema: CompiledSchema,
    pub paths: CompiledPaths,
}

pub fn judge_texts(schema: &[u8], bundle: &[u8]) -> Result<Texts, Refusal>
    ensures { TextsJudged schema.now bundle.now result }
{
    let compiled = judge_and_compile(schema)?;
    let count = compiled.relations.count;
    let paths = byte_judging::judge_bundle(schema, &compiled.names[..count], bundle)?;
    Ok(Texts {
        schema: compiled,
        paths,
    })
}

// Whether the bundle has the place, or it is 0; of texts that are refused, whether some bundle has it.
pub fn has_place(texts: &Result<Texts, Refusal>, place: usize) -> bool
    ensures { result ≡ range_of place texts.now }
{
    match texts {
        Ok(texts) => place <= texts.paths.count,
        Err(_) => place <= MAX_PATHS,
    }
}
