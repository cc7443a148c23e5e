// The classes of bytes, and what may stand where by its class.
ghost use Rattle.std.specs.Prelude.{◌≡◌};
ghost use Rattle.text_spec.specs.Bytes.{class_of};
ghost use Rattle.text.specs.classes.Classes.{meant, joins_name, in_name};

#[derive(Clone, Copy, Debug, PartialEq, Eq)]
pub enum Class {
    Blank,
    Letter,
    Digit,
    Markup,
    Other,
    Foreign,
}

// The class of a byte. Markup: the delimiters of the three grammars.
pub fn class_of(b: u8) -> Class
    ensures { meant result ≡ class_of b }
{
    match b {
        b'\t' | b'\n' | b' ' => Class::Blank,
        b'A'..=b'Z' | b'a'..=b'z' => Class::Letter,
        b'0'..=b'9' => Class::Digit,
        b'!' | b'#' | b'&' | b'('..=b',' | b'/' | b':'..=b'<' | b'>'..=b'?' | b'[' | b']' | b'|' =>
            Class::Markup,
        b'!'..=b'~' => Class::Other,
        _ => Class::Foreign,
    }
}

// Whether a byte of this class may stand in a name, where digits may or may not, and this byte may or may not if it is another.
pub fn in_name(class: Class, digits: bool, other: bool) -> bool
    ensures { result ≡ in_name (meant class) digits other }
{
    match class {
        Class::Letter => true,
        Class::Digit => digits,
        Class::Other => other,
        Class::Blank | Class::Markup | Class::Foreign => false,
    }
}

// `-`, `.` or `_`, which a name may have after its first byte.
pub fn joins_name(b: u8) -> bool
    ensures { result ≡ joins_name b }
{
    matches!(b, b'-' | b'.' | b'_')
}
