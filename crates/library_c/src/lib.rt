#![tactic(auto)]

// The archive that a C host links: the two functions of the crate `library` under their C names, with the same clauses.
ghost use Rattle.hosts.specs.results.Exits.{MakingExits, SelectingExits};
ghost use Rattle.library_spec.specs.Hosts.{make_extract, select_from};

use hosts::results::HostResult;

// A twin of the crate `library`'s: an exported function of a library crate exports nothing. Its ten parameters are the C interface.
#[unsafe(no_mangle)]
pub extern "C" fn host_make_extract(
    schema: &[u8],
    bundle: &[u8],
    journal: &[u8],
    numbers: &mut [u16],
    names: &mut [u8],
    parents: &mut [u16],
    starts: &mut [u32],
    lengths: &mut [u16],
    decoded: &mut [u16],
    out: &mut [u8],
) -> HostResult
    ensures { MakingExits (make_extract schema.now bundle.now journal.now) result numbers names parents starts lengths decoded out }
{
    library::host_make_extract(
        schema, bundle, journal, numbers, names, parents, starts, lengths, decoded, out,
    )
}

// A twin for the same reason. Its twelve parameters are the C interface.
#[unsafe(no_mangle)]
pub extern "C" fn host_select(
    schema: &[u8],
    bundle: &[u8],
    place: usize,
    extract: &[u8],
    numbers: &mut [u16],
    names: &mut [u8],
    parents: &mut [u16],
    starts: &mut [u32],
    lengths: &mut [u16],
    decoded: &mut [u16],
    items: &mut [u16],
    counts: &mut [u32],
) -> HostResult
    ensures { SelectingExits (select_from schema.now bundle.now place extract.now) result numbers names parents starts lengths decoded items counts }
{
    library::host_select(
        schema, bundle, place, extract, numbers, names, parents, starts, lengths, decoded, items,
        counts,
    )
}
