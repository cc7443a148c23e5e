// The two functions that a C host calls. A slice is a pointer and a length, what is lent is `&mut`, and the result goes out by value.
#![tactic(auto)]

ghost use Rattle.hosts.specs.results.Exits.{MakingExits, SelectingExits};
ghost use Rattle.library_spec.specs.Hosts.{make_extract, select_from};

use host_making::make_extract;
use host_selecting::select_from;
use hosts::results::HostResult;

// Makes the extract of a journal for a bundle under a schema: the journal's table in the six columns, the extract in `out`.
// Ten parameters: the C interface, where each lent column is one.
#[unsafe(no_mangle)]
pub extern "C" fn host_make_extract(
    schema: &[u8],
    bundle: &[u8],
    journal: &[u8],
    numbers: &mut [u16],
    names: &mut [u8],
    parents: &mut [u16],
    starts: &mut [u32],
    lengths: &mut [u16],
    decoded: &mut [u16],
    out: &mut [u8],
) -> HostResult
    ensures { MakingExits (make_extract schema.now bundle.now journal.now) result numbers names parents starts lengths decoded out }
{
    make_extract(
        schema, bundle, journal, numbers, names, parents, starts, lengths, decoded, out,
    )
}

// Selects from an extract what the path at a place of the bundle selects, or for place 0 what each path selects: the extract's table in the six
// columns, the numbers of the selected nodes in `items`, how many each path selects in `counts`.
// Twelve parameters: the C interface, where each lent column is one.
#[unsafe(no_mangle)]
pub extern "C" fn host_select(
    schema: &[u8],
    bundle: &[u8],
    place: usize,
    extract: &[u8],
    numbers: &mut [u16],
    names: &mut [u8],
    parents: &mut [u16],
    starts: &mut [u32],
    lengths: &mut [u16],
    decoded: &mut [u16],
    items: &mut [u16],
    counts: &mut [u32],
) -> HostResult
    ensures { SelectingExits (select_from schema.now bundle.now place extract.now) result numbers names parents starts lengths decoded items counts }
{
    select_from(
        schema, bundle, place, extract, numbers, names, parents, starts, lengths, decoded, items,
        counts,
    )
}
