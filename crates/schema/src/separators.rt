// The particles of a group with what parts them: what follows one, and what two make of the model's position automaton. No
// methods of `Parser`, since each takes but one of its fields.
ghost use Rattle.std.specs.Prelude.{◌≡◌, ◌≤◌, length};
ghost use Rattle.schema.specs.particles.Automata.{Joined};
ghost use Rattle.schema.specs.particles.Readings.{Followed, may_part};

use crate::particles::{Follow, Separator};
use models::{Ends, automata};
use text::scanning;

// Whether this may part a group that `parted` parts so far.
fn may_part(parted: Option<Separator>, by: Separator) -> bool
    ensures { result ≡ may_part parted by }
{
    match parted {
        None => true,
        Some(separator) => separator == by,
    }
}

// What follows a particle that ends at `at`, after blanks, in a group that `parted` parts so far.
pub fn after_particle(s: &[u8], at: usize, parted: Option<Separator>) -> Result<Follow, usize>
    requires { at ≤ length s.now }
    ensures { Followed s.now at parted result }
{
    let i = scanning::skip(s, at);
    match s.get(i) {
        Some(b')') => Ok(Follow::Close(i + 1)),
        Some(b'|') if may_part(parted, Separator::Bar) => Ok(Follow::More(Separator::Bar, i + 1)),
        Some(b',') if may_part(parted, Separator::Comma) => {
            Ok(Follow::More(Separator::Comma, i + 1))
        }
        _ => Err(i),
    }
}

// Where a group begins and ends that `parted` parts: so far `a`, and then the particle `b`.
pub fn join(parted: Option<Separator>, a: Ends, b: Ends, predecessors: &mut [u64]) -> Ends
    ensures { Joined parted a b predecessors.old predecessors.new result }
{
    match parted {
        None => b,
        Some(Separator::Comma) => {
            automata::link(predecessors, a.last, b.first);
            a.in_sequence(b)
        }
        Some(Separator::Bar) => a.in_choice(b),
    }
}
