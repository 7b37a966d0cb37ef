ghost use Rattle.std.specs.Prelude.{◌≡◌, ◌≤◌, length};

use crate::basis::DesignBasis;
use crate::readings::Readings;

pub mod gathering;

// The most culms of a bundle.
pub const MOST_CULMS: usize = 16;

// One to sixteen culms of one grade, with what they are designed on. An array and a count: a bundle is copied, and a vector of fixed
// room is not.
#[derive(Clone, Copy)]
pub struct Bundle {
    rows: [Readings; MOST_CULMS],
    count: usize,
    pub basis: DesignBasis,
    ghost some: { 1 ≤ count },
    ghost few: { count ≤ 16 },
    ghost room: { length rows ≡ 16 },
}
