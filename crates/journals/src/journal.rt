// The journal of commits.
ghost use Rattle.std.specs.Prelude.{◌≤◌, vec_len, vec_capacity};

use records::Line;

mod calls;

// Lines that are written from the first on, in memory for so many.
#[derive(Drop)]
pub struct Journal {
    lines: Vec<Line>,
    // How many lines there is memory for; a list may have room for more than it was made for.
    size: usize,
    ghost within: { vec_len lines ≤ size },
    ghost lent: { size ≤ vec_capacity lines },
}
