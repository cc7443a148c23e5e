// Selecting on a table by a schema's and a bundle's record: refusal 1 of the records, the place and the table, 18 last.
ghost use Rattle.std.specs.Prelude.{map, ◌≤◌, length};
ghost use Rattle.compiled_schema.specs.records.Records.{record_with};
ghost use Rattle.schema_spec.specs.Records.{schema_in};
ghost use Rattle.selection.specs.lent.Lent.{SelectsLent, bundle_of};
ghost use Rattle.selection.specs.records.Records.{SelectsNodes, PathsUnder};
ghost use Rattle.tables.specs.Handed.{read_table};
ghost use Rattle.text_spec.specs.Limits.{max_declarations};
ghost use Rattle.text_spec.specs.Scans.{name_at};

use crate::answers::{Selected, refused};
use crate::lent::select_lent;
use bundle::byte_judging::judge_bundle;
use bundle::reader::Bundle;
use bundle::record_tests::is_bundle_record;
use cells::columns::Columns;
use compiled_paths::CompiledPaths;
use schema::Schema;
use text::refusals::{Reason, Refusal};

// The paths of a bundle text under a schema with these names; none where it is refused.
fn compiled_paths(schema: &[u8], names: &[usize], text: &[u8]) -> CompiledPaths
    requires { length names.now ≤ max_declarations }
    ensures { PathsUnder (map (name_at schema.now) names.now) text.now result }
{
    match judge_bundle(schema, names, text) {
        Ok(paths) => paths,
        Err(_) => CompiledPaths::empty(),
    }
}

// Selects by the texts in the records, each compiled once.
// Eight parameters: the values of `select_nodes`.
fn select_texts(
    schema: &[u8],
    text: &[u8],
    place: usize,
    table: &Columns,
    count: usize,
    lent: &[u8],
    items: &mut [u16],
    counts: &mut [u32],
) -> Result<Selected, Refusal>
    ensures { SelectsLent (schema_in schema.now) (bundle_of schema.now text.now) place (read_table table.now count) lent.now items counts result }
{
    let compiled = compiled_schema::compile(schema);
    let words = compiled.held_words();
    let names = &compiled.names[..compiled.relations.count];
    let paths = compiled_paths(schema, names, text);
    select_lent(&paths, &words, place, table, count, lent, items, counts)
}

// The nodes that the path at a place of the bundle selects, counted from 1, or all paths for 0: their numbers path by path, and how many each selects.
// Eight parameters: a function of the public library; its table, count and text are `Rows` only once they are judged.
pub fn select_nodes(
    schema: Schema,
    bundle: Bundle,
    place: usize,
    table: &Columns,
    count: usize,
    lent: &[u8],
    items: &mut [u16],
    counts: &mut [u32],
) -> Result<Selected, Refusal>
    ensures { SelectsNodes (record_with schema.bytes schema.len) (record_with bundle.bytes bundle.len) place (read_table table.now count) lent.now items counts result }
{
    if !is_bundle_record(schema, bundle) {
        return refused(Refusal::of(Reason::BadRecord), items, counts);
    }
    select_texts(
        &schema.bytes[..schema.len],
        &bundle.bytes[..bundle.len],
        place,
        table,
        count,
        lent,
        items,
        counts,
    )
}
