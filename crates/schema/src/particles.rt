// The particles of a content model: what reading one gives, and what may follow it in its group. The functions stand in `indicators`,
// `separators` and `used_names`. A part of a text is read as what it gives, or else the place where the text departs from the grammar.
ghost use Rattle.std.specs.Prelude.{◌≡◌};
ghost use Rattle.schema.specs.particles.Automata.{PartedBy};
ghost use Rattle.schema.specs.particles.Parting.{PartedByByte, separator_in};
ghost use Rattle.schema_spec.specs.Machine.{Frame};

use models::Ends;

// A part of a model: the place past it, and where it may begin and end.
#[derive(Drop)]
pub struct Part {
    pub at: usize,
    pub ends: Ends,
}

// What parts the particles of a group.
#[derive(Clone, Copy, PartialEq, Eq)]
pub enum Separator {
    Bar,
    Comma,
}

impl Separator {
    // What parts a group by the byte that is kept for it: nothing by 0, `,`, and `|` by any other byte.
    pub fn by_byte(b: u8) -> Option<Separator>
        ensures value { result ≡ separator_in b }
        ensures parts { (f : Frame) → PartedByByte f b → PartedBy f result }
    {
        match b {
            0 => None,
            b',' => Some(Separator::Comma),
            _ => Some(Separator::Bar),
        }
    }
}

// What follows a particle in its group: the place past the group's end, or the separator and the place past that.
#[derive(Drop)]
pub enum Follow {
    Close(usize),
    More(Separator, usize),
}
