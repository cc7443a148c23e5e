// What is built of a journal's events, by value, and what each event makes of it: the depth, the nodes so far, the first refusal.
ghost use Rattle.std.specs.Prelude.{◌≡◌, ◌-◌, ◌%◌, ◌≤◌, ◌<◌, leb};
ghost use Rattle.journal_builder.specs.build_state.State.{judged_from, is_second_root, is_wrong_root, begun, texted, build, broken_by, ended_with, ends_short, step};
ghost use Rattle.text.specs.fault_keys.Keys.{no_key, place_limit, noted_key};
ghost use Rattle.text.specs.refusals.Refusals.{reason_in};
ghost use Rattle.text_spec.specs.Limits.{max_depth};
ghost use Rattle.text_spec.specs.Refusals.{number_of};

use cells::columns::RowCells;
use text::fault_keys::{PLACE_LIMIT, noted};
use text::limits::MAX_NODES;
use text::refusals::Reason;
use text::{fault_keys, limits};

// A text's length is counted in 32 bits.
const MAX_TEXT_BYTES: u32 = limits::MAX_TEXT_BYTES as u32;

// How many elements are open, how many nodes have begun, and the first refusal that applies so far.
#[derive(Clone, Copy)]
pub struct Build {
    pub depth: usize,
    pub count: usize,
    // the key of the first refusal: text::fault_keys says why it is a number
    pub fault: u64,
}

// What an event leaves, and the row of the node that it begins, if it begins one.
#[derive(Clone, Copy)]
pub struct BuildStep {
    pub build: Build,
    pub row: Option<RowCells>,
}

// The root is declared, and is not the schema's.
fn is_wrong_root(depth: usize, e: Option<u8>) -> bool
    ensures { result ≡ is_wrong_root depth e }
{
    depth == 0 && !matches!(e, None | Some(0))
}

impl Build {
    // Before the first event.
    pub fn initial() -> Build
        ensures { result ≡ build 0 0 no_key }
    {
        Build {
            depth: 0,
            count: 0,
            fault: fault_keys::NO_FAULT,
        }
    }

    // Whether nesting is not broken: below 14 it is, and nothing more is judged.
    pub fn is_judged(self) -> bool
        ensures { result ≡ leb judged_from self.fault }
    {
        fault_keys::key(Reason::UndeclaredElement, 0) <= self.fault
    }

    // Whether a start tag would begin a second root.
    pub fn is_second_root(self) -> bool
        ensures { result ≡ is_second_root self }
    {
        self.depth == 0 && self.count != 0
    }

    // A refusal by its number. It may be 0, which is no reason's number.
    pub fn broken_number(self, number: u64, at: u32) -> Build
        requires { number ≤ 18 }
        ensures { result ≡ broken_by number at self }
    {
        let key = number * PLACE_LIMIT + at as u64;
        Build {
            fault: key.min(self.fault),
            ..self
        }
    }

    // 12 or 13: from then on nothing more is judged.
    pub fn broken(self, reason: Reason, at: u32) -> Build
        ensures { result ≡ broken_by (number_of (reason_in reason)) at self }
    {
        self.broken_number(reason.number(), at)
    }

    // The element e, or an undeclared one, begins.
    pub fn with_element(self, e: Option<u8>, at: u32) -> Build
        requires { (self.depth < max_depth) × (self.count < place_limit) }
        ensures { result ≡ begun self e at }
    {
        let over = noted(
            self.fault,
            MAX_NODES <= self.count,
            Reason::OverNodeLimit,
            at,
        );
        let wrong = noted(over, is_wrong_root(self.depth, e), Reason::BadContent, at);
        Build {
            depth: self.depth + 1,
            count: self.count + 1,
            fault: noted(wrong, e.is_none(), Reason::UndeclaredElement, at),
        }
    }

    // A text node begins.
    pub fn with_text(self, start: u32, size: u32) -> Build
        requires { self.count < place_limit }
        ensures { result ≡ texted self start size }
    {
        let over = MAX_TEXT_BYTES < size || MAX_NODES <= self.count;
        Build {
            count: self.count + 1,
            fault: noted(self.fault, over, Reason::OverNodeLimit, start),
            ..self
        }
    }

    // The innermost element, whose start tag stands at the place, ends.
    pub fn without_element(self, fits: bool, place: u64) -> Build
        requires { 0 < self.depth }
        ensures { result ≡ ended_with fits (self.depth - 1) (place % place_limit) self }
    {
        let at = (place % PLACE_LIMIT) as u32;
        Build {
            depth: self.depth - 1,
            fault: noted(self.fault, !fits, Reason::BadContent, at),
            ..self
        }
    }

    // A step that leaves it, and begins no row.
    pub fn without_row(self) -> BuildStep
        ensures { result ≡ step self None }
    {
        BuildStep {
            build: self,
            row: None,
        }
    }

    // Whether the text ends too early for nesting: an element is open, or there was no root.
    fn ends_short(self) -> bool
        ensures { result ≡ ends_short self }
    {
        self.is_judged() && (self.depth != 0 || self.count == 0)
    }

    // The first refusal at the end, which stands at a place: 12 if it ends too early.
    pub fn fault_at_end(self, at: u32) -> u64
        ensures { result ≡ noted_key (ends_short self) 12 at self.fault }
    {
        noted(self.fault, self.ends_short(), Reason::BadNesting, at)
    }
}
