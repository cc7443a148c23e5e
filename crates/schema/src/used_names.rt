// A name that a content model uses, with its indicator: the place past it, and its place noted.
ghost use Rattle.std.specs.Prelude.{true, ◌≡◌, ◌≤◌, ◌<◌, length};
ghost use Rattle.schema.specs.particles.Readings.{ReadsName};
ghost use Rattle.text_spec.specs.Bytes.{starts_name};
ghost use Rattle.text_spec.specs.Scans.{byte_at};

use crate::parsing::Parser;
use crate::particles::Part;
use models::Ends;
use text::scanning;

impl Parser<'_> {
    // Past the name at i and its indicator. Its place is noted.
    pub fn use_name(&mut self, i: usize) -> Result<Part, usize>
        requires { (i < length self.old.text.now) × (starts_name (byte_at self.old.text.now i) ≡ true) × (self.old.count ≤ i) × (self.old.start ≤ self.old.count) }
        ensures { ReadsName i self.old self.new result }
    {
        scanning::note(self.uses, self.count, i);
        let name = Part {
            at: scanning::name_end(self.text, i)?,
            ends: Ends::named(self.count - self.start),
        };
        self.count += 1;
        Ok(self.indicated(name))
    }
}
