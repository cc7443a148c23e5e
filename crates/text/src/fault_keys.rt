// The first refusal that applies so far to a journal, as one number: that of its reason, then its place. The least is that of the first refusal.
ghost use Rattle.std.specs.Prelude.{◌≡◌, ◌≤◌, ◌<◌, ◌*◌, ◌⊎◌, Some, None};
ghost use Rattle.text.specs.fault_keys.Keys.{no_key, place_limit, key_at, key_of, noted_key};
ghost use Rattle.text.specs.refusals.Refusals.{reason_in, refusal_in};
ghost use Rattle.text_spec.specs.Refusals.{number_of};

use crate::refusals::{Reason, Refusal};

// A number and no `Option<Refusal>`: of an `Option` the least is None, which here comes last, so each note would compare by hand.
pub const NO_FAULT: u64 = u64::MAX;

// Every place in a text is below it.
pub const PLACE_LIMIT: u64 = 4294967296;

// The key of a number and a place.
fn key_at(number: u64, place: u32) -> u64
    requires { number ≤ 18 }
    ensures { result ≡ key_at number place }
{
    number * PLACE_LIMIT + place as u64
}

// The key of a refusal.
pub fn key(reason: Reason, place: u32) -> u64
    ensures { result ≡ key_at (number_of (reason_in reason)) place }
{
    key_at(reason.number(), place)
}

// One refusal more by its number, if the test holds. It may be 0, which is no reason's number.
pub fn noted_number(fault: u64, test: bool, number: u64, place: u32) -> u64
    requires { number ≤ 18 }
    ensures { result ≡ noted_key test number place fault }
{
    if test {
        key_at(number, place).min(fault)
    } else {
        fault
    }
}

// One refusal more, if the test holds.
pub fn noted(fault: u64, test: bool, reason: Reason, place: u32) -> u64
    ensures { result ≡ noted_key test (number_of (reason_in reason)) place fault }
{
    noted_number(fault, test, reason.number(), place)
}

// The reason of a number.
fn reason_of(number: u64) -> Option<Reason>
    ensures some { (r : Reason) → number ≡ number_of (reason_in r) → result ≡ Some r }
    ensures none { (number ≡ 0) ⊎ (18 < number) → result ≡ None }
{
    let reason = match number {
        1 => Reason::BadRecord,
        2 => Reason::BadLength,
        3 => Reason::BadByte,
        4 => Reason::BadSchema,
        5 => Reason::OverSchemaLimit,
        6 => Reason::DeclaredTwice,
        7 => Reason::UndeclaredInModel,
        8 => Reason::BadPath,
        9 => Reason::OverPathLimit,
        10 => Reason::UndeclaredInPath,
        11 => Reason::Misspelt,
        12 => Reason::BadNesting,
        13 => Reason::OverDepth,
        14 => Reason::UndeclaredElement,
        15 => Reason::BadContent,
        16 => Reason::OverNodeLimit,
        17 => Reason::BadExtract,
        18 => Reason::TooFewCells,
        _ => return None,
    };
    Some(reason)
}

// The refusal that a key tells; a number that is no reason's tells none.
pub fn refusal_in(fault: u64) -> Option<Refusal>
    ensures some { (f : Refusal) → f.place < place_limit → fault ≡ key_of (refusal_in f) → result ≡ Some f }
    ensures none { fault ≡ no_key → result ≡ None }
    ensures no_number { (fault < place_limit) ⊎ (19 * place_limit ≤ fault) → result ≡ None }
{
    let reason = reason_of(fault / PLACE_LIMIT)?;
    Some(Refusal::at(reason, (fault % PLACE_LIMIT) as usize))
}
