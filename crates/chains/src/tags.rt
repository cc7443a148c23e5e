// Chains of tags: from the root down to a row of a table, `/` and the element's name for each, `text()` for a text.
ghost use Rattle.std.specs.Prelude.{map, ◌≡◌, ◌+◌, length};
ghost use Rattle.std.proofs.lemmas.List.Edits.{sets};
ghost use Rattle.chains.specs.tags.Chains.{link_at, link_size, chain_size, SizesFit, LinkPass, SizePass, ChainPass, Chained};
ghost use Rattle.text_spec.specs.Scans.{name_at};

use cells::columns::Columns;
use cells::written_text::put_text;
use names::MAX_ELEMENTS;
use text::name_bytes;

// How many bytes each of the names at the places `names` of a text has.
pub fn name_sizes(text: &[u8], names: &[usize], sizes: &mut [usize])
    requires { length names.now ≡ length sizes.old }
    ensures { sizes.new ≡ map (λ p. length (name_at text.now p)) names.now }
{
    for e in 0..names.len() {
        sizes[e] = name_bytes::name_at(text, names[e]).len();
    }
}

// The names of a schema's elements: they stand in its text, from `starts` on, `sizes` bytes each. Two slices and none of pairs, since the places
// are the compiled schema's own.
#[derive(Drop)]
pub struct ElementNames<'a> {
    pub text: &'a [u8],
    pub starts: &'a [usize],
    pub sizes: &'a [usize],
}

impl<'a> ElementNames<'a> {
    // Measures the names at these places, and notes their sizes in the lent cells.
    pub fn of(text: &'a [u8], starts: &'a [usize], sizes: &'a mut [usize]) -> ElementNames<'a>
        requires { length starts.now ≡ length sizes.old }
        ensures text { result.text.now ≡ text.now }
        ensures starts { result.starts.now ≡ starts.now }
        ensures sizes { result.sizes.now ≡ map (λ p. length (name_at text.now p)) starts.now }
    {
        name_sizes(text, starts, sizes);
        ElementNames {
            text,
            starts,
            sizes,
        }
    }

    // How many bytes `/` and the tag of a name take, by the name's code.
    fn link_size(&self, code: u8) -> usize
        requires { SizesFit self.now.sizes.now }
        ensures { result ≡ link_size self.now.sizes.now code }
    {
        let e = code as usize;
        if e < MAX_ELEMENTS {
            self.sizes[e] + 1
        } else {
            7
        }
    }

    // Writes `/` and the tag of a name from `at` on, and gives the cell past it.
    pub fn put_link(&self, code: u8, out: &mut [u8], at: usize) -> usize
        requires { LinkPass self.now.text.now self.now.starts.now self.now.sizes.now code out.old at }
        ensures after { result ≡ at + length (link_at self.now.text.now self.now.starts.now self.now.sizes.now code) }
        ensures written { out.new ≡ sets out.old at (link_at self.now.text.now self.now.starts.now self.now.sizes.now code) }
    {
        let e = code as usize;
        out[at] = b'/';
        if e < MAX_ELEMENTS {
            let from = self.starts[e];
            let to = from + self.sizes[e];
            return put_text(out, at + 1, &self.text[from..to]);
        }
        put_text(out, at + 1, b"text()")
    }

    // How many bytes the chain of a row takes. A while: it climbs by the column of parents.
    pub fn chain_size(&self, table: &Columns, row: usize) -> usize
        requires { SizePass self.now.sizes.now table.now.names.now table.now.parents.now row }
        ensures { result ≡ chain_size self.now.sizes.now table.now.names.now table.now.parents.now row }
    {
        let mut r = row;
        let mut n = 0;
        while r != 0 {
            n += self.link_size(table.names[r]);
            r = table.parents[r] as usize;
        }
        n + self.link_size(table.names[0])
    }

    // Writes the chain of a row into the first cells, which suffice, its parent's chain first, and gives the cell past it.
    pub fn write_chain(&self, table: &Columns, row: usize, out: &mut [u8]) -> usize
        requires { ChainPass self.now.text.now self.now.starts.now self.now.sizes.now table.now.names.now table.now.parents.now row out.old }
        ensures { Chained self.now.text.now self.now.starts.now self.now.sizes.now table.now.names.now table.now.parents.now row out.old result out.new }
    {
        if row == 0 {
            return self.put_link(table.names[0], out, 0);
        }
        let up = table.parents[row] as usize;
        let at = self.write_chain(table, up, out);
        self.put_link(table.names[row], out, at)
    }
}
