// The groups of a content model, by recursive descent: where a particle or a group ends or departs from the grammar, the places of the names that
// it uses, and its position automaton.
ghost use Rattle.std.specs.Prelude.{◌≤◌, ◌<◌, length};
ghost use Rattle.schema.specs.particles.Readings.{ReadsParticle, ReadsGroup};
ghost use Rattle.text_spec.specs.Limits.{max_groups};

use crate::parsing::Parser;
use crate::particles::{Follow, Part, Separator};
use crate::{Schema, separators};
use models::Ends;
use text::scanning;

// The groups around the innermost one that may be open.
const DEEPEST: usize = Schema::MAX_GROUPS - 1;

impl Parser<'_> {
    // Past a particle that is due at `at`, after blanks, in a group with `depth` groups around it. The places of its names are noted.
    #[cycle(group_particle)]
    fn particle(&mut self, at: usize, depth: usize) -> Result<Part, usize>
        requires { (at ≤ length self.old.text.now) × (depth < max_groups) × (self.old.count ≤ at) × (self.old.start ≤ self.old.count) }
        ensures { ReadsParticle at depth self.old self.new result }
    {
        let i = scanning::skip(self.text, at);
        match self.text.get(i) {
            Some(b) if text::starts_name(*b) => self.use_name(i),
            Some(b'(') if depth < DEEPEST => {
                let p = self.group(i + 1, depth + 1)?;
                Ok(self.indicated(p))
            }
            _ => Err(i),
        }
    }

    // Past the group whose first particle is due at `at`.
    // A `loop`: each turn goes on where the particle and the separator before ended.
    #[cycle(group_particle)]
    pub fn group(&mut self, at: usize, depth: usize) -> Result<Part, usize>
        requires { (at ≤ length self.old.text.now) × (depth < max_groups) × (self.old.count ≤ at) × (self.old.start ≤ self.old.count) }
        ensures { ReadsGroup at depth self.old self.new result }
    {
        let mut i = at;
        let mut parted: Option<Separator> = None;
        let mut ends = Ends {
            first: 0,
            last: 0,
            nullable: false,
        };
        loop {
            let p = self.particle(i, depth)?;
            ends = separators::join(parted, ends, p.ends, self.predecessors);
            match separators::after_particle(self.text, p.at, parted)? {
                Follow::Close(at) => return Ok(Part { at, ends }),
                Follow::More(separator, next) => {
                    parted = Some(separator);
                    i = next;
                }
            }
        }
    }
}
