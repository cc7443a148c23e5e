// What goes out to a C host by value, of both host functions.
ghost use Rattle.std.specs.Prelude.{◌≡◌};
ghost use Rattle.hosts.specs.results.Exits.{refused_by, result_for};

use text::refusals::Refusal;

// How many rows, items and counts are answered.
#[derive(Clone, Copy, Debug, PartialEq, Eq)]
pub struct Answered {
    pub rows: usize,
    pub items: usize,
    pub counts: usize,
}

// The refusal's number, 0 for none, and its place; how many rows, items and counts are answered. Numbers and no Result: it is the C interface.
// Five of one width: a C compiler puts no gap between them.
#[repr(C)]
#[derive(Drop)]
pub struct HostResult {
    pub number: u64,
    pub place: u64,
    pub rows: u64,
    pub items: u64,
    pub counts: u64,
}

// A refusal by any number and place.
pub fn refused(number: u64, place: u64) -> HostResult
    ensures { result ≡ refused_by number place }
{
    HostResult {
        number,
        place,
        rows: 0,
        items: 0,
        counts: 0,
    }
}

impl From<Result<Answered, Refusal>> for HostResult {
    ghost from_gives = { λ answer r. r ≡ result_for answer };

    fn from(answer: Result<Answered, Refusal>) -> HostResult {
        match answer {
            Ok(answered) => HostResult {
                number: 0,
                place: 0,
                rows: answered.rows as u64,
                items: answered.items as u64,
                counts: answered.counts as u64,
            },
            Err(refusal) => refused(refusal.reason.number(), refusal.place as u64),
        }
    }
}
