#![tactic(auto)]

// `listing`: reads schema.dtd, paths.txt and journal.xml, and prints the nodes that the paths select.
ghost use Rattle.std.specs.Prelude.{◌≡◌, length, IfOk, OnErr};
ghost use Rattle.listing.specs.Prints.{IsPrefixLen, RowsPrinted};

use cells::columns::{Columns, ColumnsMut};
use chains::tags::ElementNames;
use listing_files::contents::Listed;
use listing_files::list_files;
use listing_text::headers::put_header;
use listing_text::lines::put_row;
use listing_text::parts::put_refusal;
use std::fs::File;
use std::io;
use std::io::{Read, Write};
use text::limits::{LISTED_BYTES, LISTED_ROWS, MAX_BUNDLE_BYTES, MAX_SCHEMA_BYTES};
use text::refusals::Refusal;

// Each file is read to one byte past its limit, so that a longer one is refused by 2.
const SCHEMA_BYTES: usize = MAX_SCHEMA_BYTES + 1;

const BUNDLE_BYTES: usize = MAX_BUNDLE_BYTES + 1;

const JOURNAL_BYTES: usize = LISTED_BYTES + 1;

// The longest line takes 2,098 bytes.
const LINE_BYTES: usize = 2200;

// Reads until the buffer is full or the file ends, and gives how many bytes were read. After an error the buffer has any bytes.
// A `while`: each turn goes on after the bytes that the read before gave.
fn read_full(file: &mut File, buffer: &mut [u8]) -> io::Result<usize>
    ensures ok { IfOk result (λ n. IsPrefixLen n buffer.new) }
    ensures err { OnErr result (length buffer.new ≡ length buffer.old) }
{
    let mut n = 0;
    while n < buffer.len() {
        let more = file.read(&mut buffer[n..])?;
        if more == 0 {
            return Ok(n);
        }
        n += more;
    }
    Ok(n)
}

// Reads a file; a missing one is empty.
fn read_file(rt: &HostRuntime, path: &str, buffer: &mut [u8]) -> io::Result<usize>
    ensures ok { IfOk result (λ n. IsPrefixLen n buffer.new) }
    ensures err { OnErr result (length buffer.new ≡ length buffer.old) }
{
    match File::open(rt, path) {
        Ok(mut file) => read_full(&mut file, buffer),
        Err(_) => Ok(0),
    }
}

fn print_refusal(rt: &HostRuntime, refusal: Refusal) -> io::Result<()> {
    let mut line = [0u8; LINE_BYTES];
    let n = put_refusal(&mut line, refusal);
    rt.stdout().write_all(&line[..n])
}

// The header, and then a line for each row that some path selects.
fn print_rows(
    rt: &HostRuntime,
    schema: &[u8],
    table: &Columns,
    firsts: &[u8],
    listed: Listed,
) -> io::Result<()>
    requires { RowsPrinted schema.now table.now firsts.now listed }
{
    let mut line = [0u8; LINE_BYTES];
    let size = put_header(
        &mut line,
        listed.selected as u64,
        listed.kept as u64,
        listed.rows as u64,
    );
    rt.stdout().write_all(&line[..size])?;
    let places = listed.names;
    // As many cells as there are names; `of` writes their sizes there.
    let mut sizes = places;
    let names = ElementNames::of(schema, &places, &mut sizes);
    for r in 0..listed.rows {
        let n = put_row(&names, table, firsts, r, &mut line);
        rt.stdout().write_all(&line[..n])?;
    }
    Ok(())
}

// What the three texts give: a refusal alone, or the rows.
fn print_listing(rt: &HostRuntime, schema: &[u8], bundle: &[u8], journal: &[u8]) -> io::Result<()> {
    let mut numbers = [0u16; LISTED_ROWS];
    let mut names = [0u8; LISTED_ROWS];
    let mut parents = [0u16; LISTED_ROWS];
    let mut starts = [0u32; LISTED_ROWS];
    let mut lengths = [0u16; LISTED_ROWS];
    let mut decoded = [0u16; LISTED_ROWS];
    let mut firsts = [0u8; LISTED_ROWS];
    let mut columns = ColumnsMut {
        numbers: &mut numbers,
        names: &mut names,
        parents: &mut parents,
        starts: &mut starts,
        lengths: &mut lengths,
        decoded: &mut decoded,
    };
    match list_files(schema, bundle, journal, &mut columns, &mut firsts) {
        Err(refusal) => print_refusal(rt, refusal),
        Ok(listed) => {
            let table = columns.as_columns().first(listed.rows);
            print_rows(rt, schema, &table, &firsts[..listed.rows], listed)
        }
    }
}

fn main(rt: HostRuntime) -> io::Result<()> {
    let mut schema = [0u8; SCHEMA_BYTES];
    let mut bundle = [0u8; BUNDLE_BYTES];
    let mut journal = [0u8; JOURNAL_BYTES];
    let s = read_file(&rt, "schema.dtd", &mut schema)?;
    let b = read_file(&rt, "paths.txt", &mut bundle)?;
    let j = read_file(&rt, "journal.xml", &mut journal)?;
    print_listing(&rt, &schema[..s], &bundle[..b], &journal[..j])
}
