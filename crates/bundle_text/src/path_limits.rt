// The limits of a bundle's paths (9).
ghost use Rattle.std.specs.Prelude.{◌||◌, ◌≡◌, leb, ltb};
ghost use Rattle.text_spec.specs.Limits.{max_steps, max_path_bytes, max_paths};

use text::limits::{MAX_PATH_BYTES, MAX_PATHS, MAX_STEPS};

// Whether a path passes a limit that has d before it, so many steps and bytes, and this said of its conditions.
pub fn passes_limit(d: usize, steps: usize, size: usize, condition: bool) -> bool
    ensures { result ≡ (leb max_paths d || (ltb max_steps steps || (ltb max_path_bytes size || condition))) }
{
    MAX_PATHS <= d || MAX_STEPS < steps || MAX_PATH_BYTES < size || condition
}
