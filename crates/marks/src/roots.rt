// Which variables are joined.
ghost use Rattle.std.specs.Prelude.{ℕ, ◌<◌, slice_index};

use domain::lists::MOST_VARIABLES;

// The root of each variable. Joined variables have the same, and each is a variable that is listed.
#[derive(Clone, Copy)]
pub struct Roots {
    pub of: [usize; MOST_VARIABLES],
    ghost listed: { (v : ℕ) → v < 512 → slice_index of v < 512 },
}
