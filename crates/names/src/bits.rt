// Sets of numbers below 64 as the bits of a word.
ghost use Rattle.std.specs.Prelude.{◌&&◌, ◌||◌, ◌≡◌, ℕ, eqb, ltb};
ghost use Rattle.schema_spec.specs.Names.{has_bit};
ghost use Rattle.text_spec.specs.Lists.{any_below};

// Whether `i` is in the set: never for 64 or more.
pub fn has_bit(word: u64, i: usize) -> bool
    ensures { result ≡ has_bit word i }
{
    if i < 64 { (word >> i) % 2 == 1 } else { false }
}

// The set with `i` added: unchanged for 64 or more.
pub fn with_bit(word: u64, i: usize) -> u64
    ensures { (j : ℕ) → has_bit result j ≡ (has_bit word j || (eqb j i && ltb i 64)) }
{
    if i < 64 { word | (1u64 << i) } else { word }
}

// Whether the two sets have a number in common.
pub fn meets(a: u64, b: u64) -> bool
    ensures { result ≡ any_below 64 (λ i. has_bit a i && has_bit b i) }
{
    a & b != 0
}
