// Particles with their indicators: where one ends, and what it makes of the model's position automaton.
ghost use Rattle.std.specs.Prelude.{◌≤◌, length};
ghost use Rattle.schema.specs.particles.Readings.{MayRepeat, PartIndicated};

use crate::parsing::Parser;
use crate::particles::Part;
use models::{Ends, automata};

impl Parser<'_> {
    // What the indicator at `at` makes of the ends of the particle before it, if one stands there. What repeats is linked from its last to its
    // first positions.
    fn repetition(&mut self, at: usize, ends: Ends) -> Option<Ends>
        ensures { MayRepeat at ends self.old self.new result }
    {
        match self.text.get(at) {
            Some(b'?') => Some(ends.in_repetition(true)),
            Some(b'*') => {
                automata::link(self.predecessors, ends.last, ends.first);
                Some(ends.in_repetition(true))
            }
            Some(b'+') => {
                automata::link(self.predecessors, ends.last, ends.first);
                Some(ends.in_repetition(false))
            }
            _ => None,
        }
    }

    // A particle with its indicator, if one follows.
    pub fn indicated(&mut self, p: Part) -> Part
        requires { p.at ≤ length self.old.text.now }
        ensures { PartIndicated p self.old self.new result }
    {
        match self.repetition(p.at, p.ends) {
            Some(ends) => Part { at: p.at + 1, ends },
            None => p,
        }
    }
}
