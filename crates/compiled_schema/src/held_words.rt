// What each element holds, as the bits of one word for each: bit e for element e, bit 32 + e for its text name.
ghost use Rattle.compiled_schema.specs.held_words.Words.{WordsOf};

use names::{MAX_ELEMENTS, NameSet};

// The words of the sets that each element holds.
// By index: two arrays go in step, and a `zip` is no plainer.
pub fn held_words(sets: &[NameSet; MAX_ELEMENTS]) -> [u64; MAX_ELEMENTS]
    ensures { WordsOf sets.now result }
{
    let mut out = [0u64; MAX_ELEMENTS];
    for i in 0..MAX_ELEMENTS {
        out[i] = sets[i].to_word();
    }
    out
}
