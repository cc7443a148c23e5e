// Whether children fit a content model: one step of its position automaton for each child. A state is a set of positions.
ghost use Rattle.std.specs.Prelude.{◌↔◌, ◌≡◌, ℕ, ◌≤◌, T, length};
ghost use Rattle.models.specs.Automaton.{AutomatonOf};
ghost use Rattle.models.specs.fitting.Steps.{entered, comes_next, Stepped, may_end};
ghost use Rattle.schema_spec.specs.Models.{Particle, Fits};
ghost use Rattle.schema_spec.specs.Names.{has_bit};
ghost use Rattle.text_spec.specs.Limits.{max_model_names};

use crate::{Ends, MAX_POSITIONS};
use names::bits;

// How far the children read so far have come. Names of its own, since an Option would not say what `None` is: that no child has been read.
#[derive(Clone, Copy, PartialEq, Eq)]
pub enum State {
    Start,
    // the positions that the last child may have
    Amid(u64),
}

impl State {
    // Whether the position `p` may be the next child's; `before` are the positions that it may come after.
    fn enters(self, ends: Ends, before: u64, p: usize) -> bool
        ensures { result ≡ entered ends before self p }
    {
        match self {
            State::Start => bits::has_bit(ends.first, p),
            State::Amid(set) => bits::meets(set, before),
        }
    }

    // Whether the children may end here.
    pub fn may_end(self, ends: Ends) -> bool
        ensures { result ≡ may_end ends self }
    {
        match self {
            State::Start => ends.nullable,
            State::Amid(set) => bits::meets(set, ends.last),
        }
    }
}

// A model's position automaton.
#[derive(Clone, Copy)]
pub struct Automaton<'a> {
    pub ends: Ends,
    // the element of each position
    pub elements: &'a [u8],
    // the positions that each may come after
    pub predecessors: &'a [u64],
}

impl<'a> Automaton<'a> {
    // The positions that the next child may have.
    fn next_positions(&self, state: State, child: u8, count: usize) -> u64
        requires { (count ≤ max_model_names) × (count ≤ length self.now.elements.now) × (count ≤ length self.now.predecessors.now) }
        ensures { (j : ℕ) → has_bit result j ≡ comes_next self.now.ends self.now.elements.now self.now.predecessors.now state child count j }
    {
        let mut set = 0;
        for p in 0..count {
            if self.elements[p] == child && state.enters(self.ends, self.predecessors[p], p) {
                set = bits::with_bit(set, p);
            }
        }
        set
    }

    // One child more.
    pub fn step(&self, state: State, child: u8) -> State
        ensures { Stepped self.now.ends self.now.elements.now self.now.predecessors.now state child result }
    {
        let count = MAX_POSITIONS.min(self.elements.len().min(self.predecessors.len()));
        State::Amid(self.next_positions(state, child, count))
    }

    // Whether these children, in this order, fit the model.
    pub fn fits(&self, children: &[u8]) -> bool
        ensures { (p : Particle ℕ) → AutomatonOf p self.now.ends self.now.elements.now self.now.predecessors.now → T result ↔ Fits p children.now }
    {
        let mut state = State::Start;
        for child in children {
            state = self.step(state, *child);
        }
        state.may_end(self.ends)
    }
}
