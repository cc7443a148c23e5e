// The paths that a caller asks for.
ghost use Rattle.std.specs.Prelude.{◌≡◌, ◌-◌};
ghost use Rattle.selection.specs.asked.Ranges.{past_asked};

use std::ops::Range;

// All of `count` paths, or the one at a place that is counted from 1; 0 asks for all.
pub fn asked(place: usize, count: usize) -> Range<usize>
    ensures { (result.start ≡ place - 1) × (result.end ≡ past_asked place count) }
{
    if place == 0 {
        return 0..count;
    }
    place - 1..place
}
