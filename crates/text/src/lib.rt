#![tactic(auto)]

// Bytes of a text: blanks, names, and the first byte that may stand in no text.
pub mod classes;
pub mod fault_keys;
pub mod foreign_bytes;
pub mod limits;
pub mod lookup;
pub mod name_bytes;
pub mod name_words;
pub mod refusals;
pub mod scanning;

ghost use Rattle.std.specs.Prelude.{◌≡◌};
ghost use Rattle.text_spec.specs.Bytes.{is_blank, is_foreign, starts_name, continues_name};
ghost use Rattle.text.specs.lookup.Lookup.{found};
ghost use Rattle.text_spec.specs.Lists.{first, places_from};

pub fn is_blank(b: u8) -> bool
    ensures { result ≡ is_blank b }
{
    matches!(b, b' ' | b'\t' | b'\n')
}

// A byte that fails refusal 3. By its values and not by its class, since `any_foreign` asks it of every byte.
pub fn is_foreign(b: u8) -> bool
    ensures { result ≡ is_foreign b }
{
    !matches!(b, b'\t' | b'\n' | b' '..=b'~')
}

pub fn starts_name(b: u8) -> bool
    ensures { result ≡ starts_name b }
{
    classes::in_name(classes::class_of(b), false, b == b'_')
}

pub fn continues_name(b: u8) -> bool
    ensures { result ≡ continues_name b }
{
    classes::in_name(classes::class_of(b), true, classes::joins_name(b))
}

// The place of the first byte that fails refusal 3. Most texts have no such byte, and the first test is the quicker one.
pub fn first_foreign(text: &[u8]) -> Option<usize>
    ensures { found result ≡ first (places_from 0 is_foreign text.now) }
{
    if !foreign_bytes::any_foreign(text) {
        return None;
    }
    text.iter().position(|b| is_foreign(*b))
}
