// The normal form of a schema text, byte by byte: of its blanks only the required ones, as one space each.
ghost use Rattle.std.specs.Prelude.{◌≤◌, ◌<◌, length};
ghost use Rattle.schema_reader.specs.normal_form.Normal.{Steps, Stored, Normalized};

// One byte on in the normal form: how many required blanks are due and whether a run of blanks goes on, and the byte that is kept, if any.
#[derive(Drop)]
pub struct NormalStep {
    pub due: u8,
    pub run: bool,
    pub byte: Option<u8>,
}

// Of a run of blanks one is kept, as a space, where blanks are due: two after each `<`.
fn normal_step(due: u8, run: bool, b: u8) -> NormalStep
    ensures { Steps due run b result }
{
    if text::is_blank(b) {
        if due == 0 || run {
            return NormalStep {
                due,
                run: true,
                byte: None,
            };
        }
        return NormalStep {
            due: due - 1,
            run: true,
            byte: Some(b' '),
        };
    }
    NormalStep {
        due: if due == 0 && b == b'<' { 2 } else { due },
        run: false,
        byte: Some(b),
    }
}

// Stores the byte at n, if there is one, and gives the next place.
fn store(out: &mut [u8], n: usize, byte: Option<u8>) -> usize
    requires { n < length out.old }
    ensures { Stored out.old out.new n byte result }
{
    match byte {
        Some(b) => {
            out[n] = b;
            n + 1
        }
        None => n,
    }
}

// Writes the normal form of the text and gives its length.
pub fn write_normal(s: &[u8], out: &mut [u8]) -> usize
    requires { length s.now ≤ length out.old }
    ensures { Normalized s.now out.old out.new result }
{
    let mut n = 0;
    let mut due: u8 = 0;
    let mut run = false;
    for b in s {
        let step = normal_step(due, run, *b);
        n = store(out, n, step.byte);
        due = step.due;
        run = step.run;
    }
    n
}
