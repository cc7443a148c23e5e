// The links of a content model's position automaton.
ghost use Rattle.models.specs.Building.{LinksAdded};

use names::bits;

// Each position of `firsts` may come after the positions of `lasts`, besides those that it may come after already.
pub fn link(predecessors: &mut [u64], lasts: u64, firsts: u64)
    ensures { LinksAdded predecessors.old lasts firsts predecessors.new }
{
    // none of `firsts` stands past the highest, so most cells need no turn
    let end = (u64::BITS - firsts.leading_zeros()) as usize;
    for j in 0..end.min(predecessors.len()) {
        if bits::has_bit(firsts, j) {
            predecessors[j] |= lasts;
        }
    }
}
