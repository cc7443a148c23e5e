// Selecting on a table that is handed in as row structs, under the records of a schema and a bundle.
ghost use Rattle.std.specs.Prelude.{map};
ghost use Rattle.compiled_schema.specs.records.Records.{record_with};
ghost use Rattle.library_spec.specs.Calls.{nodes_selected_rows};
ghost use Rattle.row_structs.specs.Structs.{cells_in};
ghost use Rattle.selection.specs.answers.Answers.{AnsweredCells};

use bundle::reader::Bundle;
use row_structs::Row;
use schema::Schema;
use selection::answers::{Selected, refused};
use selection::records::select_nodes;
use struct_walks::to_columns::columns_of;
use tables::row_counts::are_too_many;
use text::refusals::{Reason, Refusal};

// Selects on the rows, which are laid in columns first. More than a table can have are refused at once.
pub fn select_nodes_rows(
    schema: Schema,
    bundle: Bundle,
    place: usize,
    rows: &[Row],
    lent: &[u8],
    items: &mut [u16],
    counts: &mut [u32],
) -> Result<Selected, Refusal>
    ensures { AnsweredCells (nodes_selected_rows (record_with schema.bytes schema.len) (record_with bundle.bytes bundle.len) place (map cells_in rows.now) lent.now) result items counts }
{
    if are_too_many(rows.len()) {
        return refused(Refusal::of(Reason::BadRecord), items, counts);
    }
    let laid = columns_of(rows);
    select_nodes(
        schema,
        bundle,
        place,
        &laid.as_columns(),
        rows.len(),
        lent,
        items,
        counts,
    )
}
